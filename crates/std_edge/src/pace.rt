//! How far apart the scrapes of a target begin.
use crate::deadline::MOST_SCRAPE;
use bridge_ports::MILLISECOND;

/// When the last scrape of a target began, and the interval at which they are due, in nanoseconds.
#[derive(Clone, Copy)]
pub(crate) struct Pace {
    begun: Option<u64>,
    interval: u64,
}

impl Pace {
    /// No scrape began yet.
    pub(crate) fn new(interval: u64) -> Pace {
        Pace {
            begun: None,
            interval,
        }
    }

    /// When a scrape begins that is due then: half an interval behind the beginning of the last one at least, so that
    /// those that are late don't follow on each other's heels.
    pub(crate) fn next(&self, due: u64) -> u64 {
        match self.begun {
            Some(begun) => due.max(begun.saturating_add(self.interval / 2)),
            None => due,
        }
    }

    /// A scrape began at this reading.
    pub(crate) fn begin(&mut self, reading: u64) {
        self.begun = Some(reading);
    }

    /// How many milliseconds a scrape takes at most.
    pub(crate) fn most(&self) -> u64 {
        let interval = self.interval / MILLISECOND;
        if (1_000..MOST_SCRAPE).contains(&interval) {
            return interval;
        }
        MOST_SCRAPE
    }
}
