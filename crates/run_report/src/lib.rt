//! The report of a run: for each target and for all of them, how many visits were made and what came of them.
#![tactic(auto)]

mod numbers;
mod report;
mod target_end;

pub use report::{push_report, push_served};
pub use target_end::{TargetEnd, ends_of, some_halted};
