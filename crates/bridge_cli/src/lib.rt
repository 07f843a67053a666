//! The commands over an input, an output and a world: what each prints, the scrapers that visit the targets of a script,
//! and the status.
#![tactic(auto)]

mod answer;
mod commands;
mod printing;
mod program;
mod turns;

pub use program::execute;
