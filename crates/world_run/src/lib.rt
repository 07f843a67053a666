//! A run over the wires of a world: the targets of a configuration are visited, beside the door at which
//! pages are served, and the wires and the door come home.
#![tactic(auto)]

mod doors;
mod ends;
mod home;
mod run;
mod taking;

pub use run::{RunEnd, run_config};
