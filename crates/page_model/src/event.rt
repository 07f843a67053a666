//! What a scrape gives, and what a target shows of it.
ghost use Rattle.std.specs.Prelude.{◌≡◌, IfOk};

use crate::page::Page;
use crate::rule::Rule;
use label_sets::{Memory, Text};

/// Why a scrape failed.
#[derive(Clone, Copy, Debug, PartialEq, Eq)]
pub enum Cause {
    Connect,
    Write,
    Read,
    Head,
    Status(u16),
    Encoding,
    MediaType,
    TooLong,
    Chunk,
    Truncated,
    Page { line: u32, rule: Rule },
}

/// What a scrape gave.
#[derive(Drop)]
pub enum Outcome {
    Page(Page),
    Failed(Cause),
}

/// A scrape with the reading of the clock at its start, in nanoseconds since the Unix epoch.
#[derive(Drop)]
pub struct Event {
    pub reading: u64,
    pub outcome: Outcome,
}

/// What a target shows.
#[derive(Drop)]
pub struct Shown {
    pub job: Text,
    pub instance: Text,
    /// The moment of the last event, in nanoseconds since the Unix epoch; none before the first.
    pub moment: Option<u64>,
    pub page: Page,
}

impl Shown {
    /// An equal value, whose page and long texts have one owner more.
    ///
    /// # Errors
    ///
    /// Want of memory.
    pub fn copy(&self) -> Result<Shown, Memory>
        ensures { IfOk result (λ shown. shown ≡ self.now) }
    {
        let job = self.job.copy()?;
        let instance = self.instance.copy()?;
        let page = self.page.copy()?;
        Ok(Shown {
            job,
            instance,
            moment: self.moment,
            page,
        })
    }
}
