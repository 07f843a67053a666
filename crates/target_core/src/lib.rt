//! What a target's scrapes become: the OTLP tree of each of its events. It reads and sends nothing.
#![tactic(auto)]

mod gone;
mod moments;
mod parts;
mod places;
mod resource;
mod state;
mod tree;
pub mod tree_laws;

pub use bridge_ports::Target;
pub use parts::Parts;
pub use state::TargetState;
