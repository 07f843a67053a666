//! The series of a page that the next page lacks.
#![tactic(auto)]

pub mod gone_laws;
mod keys;
mod marks;
mod series_gone;

pub use marks::{Mark, vanished_marks};
pub use series_gone::vanished;
