//! The commands over one page: what they do with the page on an input.
#![tactic(auto)]

mod commands;
mod pages;

pub use commands::{PageText, answer};
