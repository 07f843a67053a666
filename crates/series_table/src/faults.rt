//! What is told of a visit that failed, in the words of whoever looks after a run.
use bridge_ports::{BodyFault, TalkFault};
use otlp_sender::{Posted, Try};
use page_model::{Cause, Event, Outcome};

/// Why a scrape gave no page, where it gave none.
pub(crate) fn told_scrape(event: &Event) -> Option<TalkFault> {
    match event.outcome {
        Outcome::Page(_) => None,
        Outcome::Failed(cause) => Some(told_cause(cause)),
    }
}

fn told_cause(cause: Cause) -> TalkFault {
    match cause {
        Cause::Connect => TalkFault::Connect,
        Cause::Write => TalkFault::Write,
        Cause::Read => TalkFault::Read,
        Cause::Head => TalkFault::Head,
        Cause::Status(status) => TalkFault::Status(status),
        Cause::Encoding => TalkFault::Encoding,
        Cause::MediaType => TalkFault::MediaType,
        Cause::TooLong => TalkFault::TooLong,
        Cause::Chunk => TalkFault::Chunk,
        Cause::Truncated => TalkFault::Truncated,
        Cause::Page { line, rule } => TalkFault::Page {
            line,
            rule: rule.number(),
            name: rule.name(),
        },
    }
}

/// Why a body was not taken, where it was not.
pub(crate) fn told_body(posted: Posted) -> Option<BodyFault> {
    match posted {
        Posted::Accepted(_) => None,
        Posted::Refused(status) => Some(BodyFault::Refused(status)),
        Posted::GivenUp(last) => Some(BodyFault::GivenUp(told_try(last))),
    }
}

fn told_try(last: Try) -> TalkFault {
    match last {
        Try::Connect => TalkFault::Connect,
        Try::Write => TalkFault::Write,
        Try::Read => TalkFault::Read,
        Try::NoHead => TalkFault::Head,
        Try::Status(status) => TalkFault::Status(status),
    }
}
