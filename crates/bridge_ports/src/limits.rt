//! Limits and units that several crates go by. The limits are the bridge's own.

/// The most bytes that one read takes: 16 KiB. A block lies on the stack, and what a command has there stays below the
/// 128 KiB that the system gives a process from the start: more would have to be found behind a limit of memory.
pub const BLOCK_BYTES: usize = 1 << 14;

/// The most targets of a run.
pub const MOST_TARGETS: usize = 256;

/// The most bytes of the name of a job.
pub const MOST_JOB_BYTES: usize = 256;

/// The most bytes of the host of a target.
pub const MOST_HOST_BYTES: usize = 256;

/// A millisecond, in nanoseconds.
pub const MILLISECOND: u64 = 1_000_000;

/// A second, in nanoseconds.
pub const SECOND: u64 = 1_000_000_000;
