//! Which readings of one target's series are taken, at which times, and when the series began, from its scrapes so
//! far: a row for each series, and no history.
#![tactic(auto)]

mod entries;
mod falls;
mod listing;
mod row;
mod sighting;
pub mod start_laws;
mod tracker;
mod values;

pub use row::{Kept, KeptStarts, Last, Placed, Row, Starts};
pub use tracker::Tracker;
pub use values::{created_at, has_points, has_start, time_of};
