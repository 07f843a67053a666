//! Reads a page in pieces of any size: what the readers of both formats share. Lines are told from the bytes, a
//! grammar reads each of them, and a checker takes what they say.
#![tactic(auto)]

mod grammar;
mod reader;

pub use grammar::Grammar;
pub use reader::PageReader;
