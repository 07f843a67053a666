//! The samples of a family whose readings have several, gathered by the labels that they share: those of
//! histograms and summaries, and of OpenMetrics' counters.
#![tactic(auto)]

mod added;
mod extra;
mod group;
mod group_labels;
mod group_table;
mod groups;
mod member;
mod part;
mod part_list;
mod parts;
mod places;
mod reading;
mod shared;

pub use added::Added;
pub use groups::Groups;
pub use member::{MemberRef, sample_time};
pub use part::{Part, is_grouped, part_of};
