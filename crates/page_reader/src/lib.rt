//! Reads a page of either format in pieces of any size: one reader over those of both.
#![tactic(auto)]

mod any_reader;

pub use any_reader::AnyReader;
pub use line_scan::KnownFronts;
