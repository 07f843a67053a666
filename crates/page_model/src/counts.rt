//! How much a page has.

/// How many families and sample lines a page has.
#[derive(Clone, Copy, Debug, PartialEq, Eq)]
pub struct PageCounts {
    pub families: usize,
    pub samples: u32,
}
