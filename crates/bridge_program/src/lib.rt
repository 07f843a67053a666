//! The program: what the words of its command line ask for is done over an input, an output and a world.
#![tactic(auto)]

mod program;

pub use program::bridge;
