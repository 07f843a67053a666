//! What is told of a run while it goes on, for whoever looks after it. All of it is copied, and no contract says what
//! becomes of it.
use std::fmt;

/// Why a talk gave no page, or no verdict on a body.
#[derive(Clone, Copy, Debug, PartialEq, Eq)]
pub enum TalkFault {
    /// No connection was made.
    Connect,
    /// A write failed.
    Write,
    /// A read failed.
    Read,
    /// The reply has no head that is taken.
    Head,
    /// The reply has a content encoding.
    Encoding,
    /// The reply has a media type that is no page's.
    MediaType,
    /// The body is longer than it may be.
    TooLong,
    /// A chunk of the body is faulty.
    Chunk,
    /// The reply ended before its body did.
    Truncated,
    /// The reply has this status.
    Status(u16),
    /// The page breaks a rule, first in this line: its number and its name.
    Page {
        line: u32,
        rule: u8,
        name: &'static str,
    },
}

/// Why a body was not taken.
#[derive(Clone, Copy, Debug, PartialEq, Eq)]
pub enum BodyFault {
    /// The collector answered with this status, behind which no further try is due.
    Refused(u16),
    /// All tries were made; this came of the last.
    GivenUp(TalkFault),
}

/// What a visit of a target came to.
#[derive(Clone, Copy, Debug, PartialEq, Eq)]
pub enum Notice {
    /// The visit was made: why its scrape failed and why its body was not taken, where they were so.
    Visited {
        scrape: Option<TalkFault>,
        body: Option<BodyFault>,
    },
    /// Memory was wanted. No further visit is made.
    Halted,
}

/// What the file of a configuration came to.
#[derive(Clone, Copy, Debug, PartialEq, Eq)]
pub enum RunNotice {
    /// It is one, and its run begins.
    Begun { targets: u32, interval_ms: u64 },
    /// It is none. Where it is no document of TOML, it is one up to this line and column, each counted from 1.
    Faulty { broken_at: Option<(u32, u32)> },
}

impl fmt::Display for TalkFault {
    fn fmt<W: fmt::Write>(&self, f: &mut fmt::Formatter<W>) -> fmt::Result {
        match self {
            TalkFault::Connect => f.write_str("no connection"),
            TalkFault::Write => f.write_str("a write failed"),
            TalkFault::Read => f.write_str("a read failed"),
            TalkFault::Head => f.write_str("no head of HTTP/1"),
            TalkFault::Encoding => f.write_str("a content encoding"),
            TalkFault::MediaType => f.write_str("another media type"),
            TalkFault::TooLong => f.write_str("too long"),
            TalkFault::Chunk => f.write_str("a faulty chunk"),
            TalkFault::Truncated => f.write_str("cut short"),
            TalkFault::Status(status) => write!(f, "status {status}"),
            TalkFault::Page { line, rule, name } => {
                write!(f, "refused line {line} rule {rule} {name}")
            }
        }
    }
}

impl fmt::Display for BodyFault {
    fn fmt<W: fmt::Write>(&self, f: &mut fmt::Formatter<W>) -> fmt::Result {
        match self {
            BodyFault::Refused(status) => write!(f, "refused, status {status}"),
            BodyFault::GivenUp(fault) => write!(f, "given up, {fault}"),
        }
    }
}
