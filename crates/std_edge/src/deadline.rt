//! How long calls, and whole talks, may take.
use bridge_ports::MILLISECOND;
use std::time::{Clock, Duration};

/// How many milliseconds a connect or a write stands still at most before it fails, and a read of a scrape or at the
/// door.
pub const MOST_WAIT: u64 = 10_000;

/// How many milliseconds a scrape takes at most, from its connect to its last byte. Where the interval is between one
/// second and this, a scrape takes at most an interval.
pub const MOST_SCRAPE: u64 = 10_000;

/// How many milliseconds a post takes at most, from its connect to the last byte of the reply. A read of it may stand
/// still for as long as that.
pub const MOST_POST: u64 = 30_000;

/// How many milliseconds a connection at the door takes at most.
pub const MOST_SERVED: u64 = 10_000;

/// How many milliseconds of them what a peer still sends is read off at most, before its connection is closed.
pub const MOST_LINGER: u64 = 1_000;

/// The moment at which a talk has to be over, by the clock that doesn't step.
#[derive(Clone, Copy)]
pub(crate) struct Deadline {
    end: u64,
}

impl Deadline {
    /// So many milliseconds from now; at once, where the clock can't be read.
    pub(crate) fn after<R: Clock>(clock: &R, millis: u64) -> Deadline {
        let now = steady_nanos(clock).unwrap_or(0);
        Deadline {
            end: now.saturating_add(millis.saturating_mul(MILLISECOND)),
        }
    }

    /// The earlier one.
    pub(crate) fn or_earlier(self, other: Deadline) -> Deadline {
        Deadline {
            end: self.end.min(other.end),
        }
    }

    /// For how long a call may stand still that may do so for so many milliseconds. There is none behind the
    /// deadline, or where the clock can't be read.
    pub(crate) fn left<R: Clock>(&self, clock: &R, millis: u64) -> Option<Duration> {
        let left = self.end.saturating_sub(steady_nanos(clock)?) / MILLISECOND;
        if left == 0 {
            return None;
        }
        Some(Duration::from_millis(left.min(millis)))
    }
}

/// The reading of the clock that doesn't step, in nanoseconds since its start.
pub(crate) fn steady_nanos<R: Clock>(clock: &R) -> Option<u64> {
    Some(nanos(clock.monotonic().ok()?))
}

/// A duration in nanoseconds.
pub(crate) fn nanos(of: Duration) -> u64 {
    of.as_nanos().min(u64::MAX as u128) as u64
}
