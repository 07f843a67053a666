//! The track of a target: its visits, each a scrape and the posts of what it gave.
#![tactic(auto)]

mod aim;
mod counts;
mod faults;
mod making;
mod point_counts;
mod post_text;
mod track;
mod visited;

pub use bridge_ports::{Address, Place, Settings, Target};
pub use counts::Counts;
pub use track::{Track, TrackFault};
pub use visited::Visited;
