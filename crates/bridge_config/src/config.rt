//! What a configuration says.
use bridge_ports::{Address, Settings, Target};
use label_sets::List;

/// What a configuration says, with the defaults of the keys that it lacks.
#[derive(Drop)]
pub struct Config {
    pub settings: Settings,
    /// From 1 to 1,000,000.
    pub rounds: u32,
    /// From 1 to 4.
    pub scrapers: u32,
    /// Where bodies are posted.
    pub collector: Address,
    /// Where the federation page is served; its path is empty.
    pub door: Option<Address>,
    /// How many connections are served, from 0 to 1,000.
    pub pages: u32,
    /// From 1 to 256, no two with one job and instance.
    pub targets: List<Target>,
}
