//! The time of day by the clock that doesn't step.
ghost use Rattle.std.specs.Prelude.{◌≤◌, IfSome};

use crate::deadline::{nanos, steady_nanos};
use std::time::{Clock, Duration};

/// How far the time of day has to be ahead of a reading, and for how long, until readings follow it: a minute, in
/// nanoseconds.
const MINUTE: u64 = 60_000_000_000;

/// How long a wait sleeps at most before it looks at the clock again, in nanoseconds: a second.
const MOST_SLEEP: u64 = 1_000_000_000;

/// How often a wait sleeps at most: for two days and more.
const MOST_SLEEPS: u32 = 200_000;

/// Both clocks at one moment, in nanoseconds: the one that doesn't step, since its start, and the time of day, since
/// the Unix epoch.
#[derive(Clone, Copy)]
struct Moment {
    steady: u64,
    day: u64,
}

/// The time of day as it was at a start, and what has passed since by the clock that doesn't step. So nobody who sets
/// the time of day stops a run or makes it race. Where the time of day stays ahead by more than a minute, as it does
/// behind a sleep of the machine, readings follow it.
#[derive(Clone, Copy)]
pub(crate) struct SteadyClock {
    start: Option<Moment>,
    ahead_since: Option<u64>,
}

impl SteadyClock {
    /// It starts now, or with its first reading where the clocks can't be read.
    pub(crate) fn new<R: Clock>(machine: &R) -> SteadyClock {
        SteadyClock {
            start: both_of(machine),
            ahead_since: None,
        }
    }

    /// Sleeps until the reading is `due` at least, in nanoseconds since the Unix epoch, and answers it.
    pub(crate) fn wait<R: Clock>(&mut self, machine: &R, due: u64) -> Option<u64>
        ensures { IfSome result (λ at. due ≤ at) }
    {
        for _ in 0..MOST_SLEEPS {
            let now = self.read(machine)?;
            if now >= due {
                return Some(now);
            }
            machine.sleep(Duration::from_nanos((due - now).min(MOST_SLEEP)));
        }
        None
    }

    fn read<R: Clock>(&mut self, machine: &R) -> Option<u64> {
        let now = both_of(machine)?;
        let start = self.start.unwrap_or(now);
        let at = start
            .day
            .saturating_add(now.steady.saturating_sub(start.steady));
        if self.is_behind(at, now) {
            self.start = Some(now);
            self.ahead_since = None;
            return Some(now.day);
        }
        self.start = Some(start);
        Some(at)
    }

    // Whether a reading has been more than a minute behind the time of day for a minute.
    fn is_behind(&mut self, at: u64, now: Moment) -> bool {
        if now.day <= at.saturating_add(MINUTE) {
            self.ahead_since = None;
            return false;
        }
        let since = self.ahead_since.unwrap_or(now.steady);
        self.ahead_since = Some(since);
        now.steady.saturating_sub(since) >= MINUTE
    }
}

/// What both clocks read.
fn both_of<R: Clock>(machine: &R) -> Option<Moment> {
    Some(Moment {
        steady: steady_nanos(machine)?,
        day: nanos(machine.since_1970().ok()?),
    })
}
