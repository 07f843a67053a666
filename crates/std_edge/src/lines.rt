//! What is said of a target while a run goes on: when a line is due, and its words.
ghost use Rattle.std.specs.Prelude.{◌≡◌, true, Some, IfSome, IfNone};
ghost use Rattle.std_edge.specs.Saying.{IsQuiet};

use bridge_ports::{BodyFault, Reason, TalkFault};
use std::fmt;

/// How long no line follows another one on the same target, in nanoseconds: a minute.
const MINUTE: u64 = 60_000_000_000;

/// How the scrapes of a target stand, or its bodies: the sort of fault that a line told last, 0 where it told that there
/// is none, and how many failed since then.
#[derive(Clone, Copy)]
struct Standing {
    told: u32,
    failed: u64,
}

/// What a line says of scrapes: why they fail, or behind how many that failed one didn't.
#[derive(Clone, Copy)]
enum ScrapeNews {
    Fail(TalkFault, Reason),
    Again(u64),
}

/// What a line says of bodies: why they are not taken, or behind how many that were not one was.
#[derive(Clone, Copy)]
enum BodyNews {
    Fail(BodyFault),
    Again(u64),
}

/// A line on a target, without its name.
#[derive(Clone, Copy)]
pub struct Line {
    scrape: Option<ScrapeNews>,
    body: Option<BodyNews>,
    is_halt: bool,
}

/// What was said of a target, and when, by the clock that doesn't step. A line tells each change since the one before, so
/// that the last one tells how the target stands, but for what the last minute brought.
#[derive(Clone, Copy)]
pub struct Lines {
    said: Option<u64>,
    scrapes: Standing,
    bodies: Standing,
    is_halted: bool,
}

impl Standing {
    /// Nothing failed, and nothing was said.
    const WELL: Standing = Standing { told: 0, failed: 0 };

    // Counts one more, whose fault is of this sort.
    fn count(&mut self, sort: u32) {
        if sort != 0 {
            self.failed = self.failed.saturating_add(1);
        }
    }

    // Whether there is something to tell where the last one's fault is of this sort. That others failed before it is
    // told too, though it didn't.
    fn has_news(&self, sort: u32) -> bool {
        sort != self.told || (sort == 0 && self.failed > 0)
    }

    // A line tells this sort. How many failed that none told to be over.
    fn tell(&mut self, sort: u32) -> u64 {
        let failed = self.failed;
        self.told = sort;
        if sort == 0 {
            self.failed = 0;
        }
        failed
    }

    // What is told of scrapes, of which the last one had this fault.
    fn scrape_news(&mut self, fault: Option<TalkFault>, reason: Reason) -> Option<ScrapeNews> {
        let sort = scrape_sort(fault, reason);
        if !self.has_news(sort) {
            return None;
        }
        let failed = self.tell(sort);
        match fault {
            Some(fault) => Some(ScrapeNews::Fail(fault, reason)),
            None => Some(ScrapeNews::Again(failed)),
        }
    }

    // What is told of bodies, of which the last one had this fault.
    fn body_news(&mut self, fault: Option<BodyFault>) -> Option<BodyNews> {
        let sort = body_sort(fault);
        if !self.has_news(sort) {
            return None;
        }
        let failed = self.tell(sort);
        match fault {
            Some(fault) => Some(BodyNews::Fail(fault)),
            None => Some(BodyNews::Again(failed)),
        }
    }
}

impl Lines {
    /// Nothing was said yet.
    pub fn new() -> Lines {
        Lines {
            said: None,
            scrapes: Standing::WELL,
            bodies: Standing::WELL,
            is_halted: false,
        }
    }

    /// The line behind a visit, where one is due at this moment: why its scrape failed, and why its body was not taken.
    /// `reason` is what the machine told of the last call of a scrape that failed.
    pub fn visited(
        &mut self,
        scrape: Option<TalkFault>,
        body: Option<BodyFault>,
        reason: Reason,
        now: u64,
    ) -> Option<Line>
        ensures rare { IfSome result (λ _. IsQuiet self.old.said now) }
        ensures said { IfSome result (λ _. self.new.said ≡ Some now) }
        ensures silent { IfNone result (self.new.said ≡ self.old.said) }
    {
        self.scrapes.count(scrape_sort(scrape, reason));
        self.bodies.count(body_sort(body));
        if !self.is_quiet(now) {
            return None;
        }
        let line = Line {
            scrape: self.scrapes.scrape_news(scrape, reason),
            body: self.bodies.body_news(body),
            is_halt: false,
        };
        if !line.has_news() {
            return None;
        }
        self.said = Some(now);
        Some(line)
    }

    /// The line on a halt, which is the last one of a target, and waits for nothing.
    pub fn halted(&mut self) -> Option<Line> {
        if self.is_halted {
            return None;
        }
        self.is_halted = true;
        Some(Line {
            scrape: None,
            body: None,
            is_halt: true,
        })
    }

    // Whether no line was said in the minute before this moment.
    fn is_quiet(&self, now: u64) -> bool
        ensures { result ≡ true → IsQuiet self.now.said now }
    {
        match self.said {
            Some(said) => now.saturating_sub(said) >= MINUTE,
            None => true,
        }
    }
}

impl Line {
    // Whether it says anything.
    fn has_news(&self) -> bool {
        self.scrape.is_some() || self.body.is_some()
    }
}

/// A number for each sort of fault of a scrape, 0 for none. Faults of one sort are told once.
fn scrape_sort(fault: Option<TalkFault>, reason: Reason) -> u32 {
    let Some(fault) = fault else {
        return 0;
    };
    match fault {
        TalkFault::Connect => 100 + reason as u32,
        TalkFault::Write => 200 + reason as u32,
        TalkFault::Read => 300 + reason as u32,
        fault => talk_sort(fault),
    }
}

/// The same of a body.
fn body_sort(fault: Option<BodyFault>) -> u32 {
    let Some(fault) = fault else {
        return 0;
    };
    match fault {
        BodyFault::Refused(status) => 200_000 + u32::from(status),
        BodyFault::GivenUp(fault) => talk_sort(fault),
    }
}

/// The same of a talk. A page's rule counts, and not its line, which may be another one in each scrape.
fn talk_sort(fault: TalkFault) -> u32 {
    match fault {
        TalkFault::Connect => 1,
        TalkFault::Write => 2,
        TalkFault::Read => 3,
        TalkFault::Head => 4,
        TalkFault::Encoding => 5,
        TalkFault::MediaType => 6,
        TalkFault::TooLong => 7,
        TalkFault::Chunk => 8,
        TalkFault::Truncated => 9,
        TalkFault::Page {
            line: _,
            rule,
            name: _,
        } => 1_000 + u32::from(rule),
        TalkFault::Status(status) => 100_000 + u32::from(status),
    }
}

/// A fault, and why, where the machine told it.
fn write_fault<W: fmt::Write>(
    f: &mut fmt::Formatter<W>,
    fault: TalkFault,
    reason: Reason,
) -> fmt::Result {
    match fault {
        TalkFault::Connect | TalkFault::Write | TalkFault::Read => {
            write!(f, "{fault}, {}", reason.words())
        }
        fault => write!(f, "{fault}"),
    }
}

impl fmt::Display for ScrapeNews {
    fn fmt<W: fmt::Write>(&self, f: &mut fmt::Formatter<W>) -> fmt::Result {
        match self {
            ScrapeNews::Fail(fault, reason) => {
                f.write_str("scrape failed: ")?;
                write_fault(f, *fault, *reason)
            }
            ScrapeNews::Again(failed) => write!(f, "scraped again, behind {failed} that failed"),
        }
    }
}

impl fmt::Display for BodyNews {
    fn fmt<W: fmt::Write>(&self, f: &mut fmt::Formatter<W>) -> fmt::Result {
        match self {
            BodyNews::Fail(fault) => write!(f, "body {fault}"),
            BodyNews::Again(failed) => {
                write!(f, "bodies taken again, behind {failed} that were not")
            }
        }
    }
}

impl fmt::Display for Line {
    fn fmt<W: fmt::Write>(&self, f: &mut fmt::Formatter<W>) -> fmt::Result {
        if self.is_halt {
            return f.write_str("halted for want of memory");
        }
        match (self.scrape, self.body) {
            (Some(scrape), Some(body)) => write!(f, "{scrape}; {body}"),
            (Some(scrape), None) => write!(f, "{scrape}"),
            (None, Some(body)) => write!(f, "{body}"),
            (None, None) => Ok(()),
        }
    }
}
