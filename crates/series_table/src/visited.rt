//! What a visit came to.

/// What a visit came to.
#[derive(Clone, Copy, Debug, PartialEq, Eq)]
pub enum Visited {
    Done,
    /// Memory was wanted, in this visit or an earlier one.
    Halted,
}
