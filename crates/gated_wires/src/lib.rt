//! Wires in memory whose reads wait, for tests and benchmarks of what overlaps. They stand here, since the tests of
//! several crates use them.
#![tactic(auto)]

mod gate;
mod gated_wire;

pub use gate::{Gate, Gates, Waits, is_set_in_time};
pub use gated_wire::GatedWire;
