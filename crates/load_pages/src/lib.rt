//! The large input that a number stands for: so many targets, and what is answered when they are scraped.
#![tactic(auto)]

mod limits;
mod pages;
mod scripts;

pub use limits::{MOST_NUMBER, is_load};
pub use scripts::generated;
