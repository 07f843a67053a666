//! Words of lines and command lines: whole numbers, visible words, a host with a port, and what stands
//! on both sides of a byte.
#![tactic(auto)]

mod cutting;
mod places;
mod whole_number;

pub use cutting::cut_first;
pub use places::{Place, host_and_port, is_visible_word};
pub use whole_number::number;
