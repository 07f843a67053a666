//! The metrics of families: the points of readings with their exemplars and their labels, and those of series that are
//! gone, by the metrics that they belong to.
#![tactic(auto)]

mod families;
mod forms;
pub mod keyed;
mod markers;
pub mod metric_laws;
mod metrics;
mod scopes;
mod shots;

pub use families::{event_metrics, next_places};
pub use markers::Marker;
pub use scopes::scope_name;
