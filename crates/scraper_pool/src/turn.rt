//! What a worker's turn came to.

/// What a worker's turn came to.
#[derive(Clone, Copy, Debug, PartialEq, Eq)]
pub enum Turn {
    /// A target was taken, visited and put back.
    Visited,
    /// No target that is at home and not halted had a visit left.
    Nothing,
}
