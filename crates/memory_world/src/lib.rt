//! A world in memory: files by path, pairs of wires by number, doors by address, and a shelf; for runs that
//! nothing outside takes part in.
#![tactic(auto)]

mod keyed;
mod memory_files;
mod memory_pairs;
mod world;

pub use world::MemoryWorld;
