//! What is visited, and how.

use bridge_ports::{Address, Settings, Target};

/// What is scraped, where its bodies go, and how it is visited.
#[derive(Drop)]
pub(crate) struct Aim {
    pub(crate) target: Target,
    pub(crate) to: Address,
    pub(crate) settings: Settings,
}
