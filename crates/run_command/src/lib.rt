//! The command `run`: the configuration in a file, the visits of its targets over the wires of a world, and the
//! report of them.
#![tactic(auto)]

mod config_file;
mod report;
mod running;

pub use report::Report;
pub use running::run;
