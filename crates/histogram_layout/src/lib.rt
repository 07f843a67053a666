//! The layout of a histogram: explicit bounds and the counts between them, from the cumulative buckets
//! of an exposition page.
#![tactic(auto)]

mod buckets;
mod intervals;
pub mod laws;

pub use buckets::{is_cumulative, layout};
pub use intervals::Layout;
