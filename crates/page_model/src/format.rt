//! The forms of pages, and how a target treats their labels.

/// The text form of a page.
#[derive(Clone, Copy, Debug, PartialEq, Eq)]
pub enum Format {
    /// The Prometheus text format 0.0.4.
    Text,
    /// OpenMetrics 1.0 in its text form.
    OpenMetrics,
}

/// Whose page is read.
#[derive(Clone, Copy, Debug, PartialEq, Eq)]
pub enum Treatment {
    /// A target's: lines of at most 65,536 bytes, at most 64 labels, and the labels `job` and
    /// `instance` renamed.
    Scraped,
    /// One of this project's own writer: lines of at most 262,144 bytes, at most 66 labels, and names
    /// kept.
    Written,
}
