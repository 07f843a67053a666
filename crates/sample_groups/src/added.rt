//! What the groups answer to a part.

/// The answer to a part of a sample.
#[derive(Drop)]
pub struct Added {
    /// The part keeps the order of its group, and was added.
    pub fits: bool,
    /// The group had begun, and another one after it.
    pub overtaken: bool,
}
