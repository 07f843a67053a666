//! How a target is visited.

/// How a target is visited.
#[derive(Clone, Copy, Debug, PartialEq, Eq)]
pub struct Settings {
    /// Over how many scrapes that miss it a series keeps its start: 0 to 4.
    pub keep: u32,
    /// How often a body is tried: 1 to 8.
    pub tries: u32,
    /// The most samples of a page: 1 to 200,000.
    pub limit: u32,
    /// The most bytes of a page: 1,024 to 67,108,864.
    pub max_page: u32,
    /// The time from one visit to the next, in nanoseconds.
    pub interval: u64,
}
