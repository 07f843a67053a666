//! The limits of what words say.

/// The most scrapers that visit the targets of a script at once.
pub(crate) const MOST_SCRAPERS: u64 = 4;

/// The most selectors behind the word `page`.
pub(crate) const MOST_SELECTORS: usize = 16;

/// The latest time, in nanoseconds since the Unix epoch.
pub(crate) const MOST_NANOS: u64 = 1 << 62;

/// The most bytes of the host of an instance.
pub(crate) const MOST_INSTANCE_HOST_BYTES: usize = 255;
