//! Tests of the program over worlds, inputs and outputs of their own: what no clause says, and what is no row of `rows`.
//! They stand here, since a crate with tests is proved once more for them.
#![tactic(auto)]

#[cfg(test)]
mod calls;
