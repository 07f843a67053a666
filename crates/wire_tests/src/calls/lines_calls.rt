//! What is said of a target while a run goes on: when, and in which words.
use bridge_ports::{BodyFault, Reason, TalkFault};
use std::alloc::{AllocError, Global};
use std_edge::Lines;

/// A visit: how many seconds behind the first, why its scrape failed, and why its body was not taken.
type Visit = (u64, Option<TalkFault>, Option<BodyFault>);

/// The lines that these visits bring, each ended by a line feed.
fn said(alloc: Global, visits: &[Visit]) -> Result<String, AllocError> {
    let mut text = String::new(alloc);
    let mut lines = Lines::new();
    for (second, scrape, body) in visits {
        let now = (*second).saturating_mul(1_000_000_000);
        if let Some(line) = lines.visited(*scrape, *body, Reason::Refused, now) {
            text.push_str(format!(in alloc; "{line}\n")?.as_str())?;
        }
    }
    Ok(text)
}

/// Whether they bring just these.
fn is_said(alloc: Global, visits: &[Visit], lines: &str) -> Result<bool, AllocError> {
    let text = said(alloc, visits)?;
    Ok(text.as_str() == lines)
}

const GONE: Option<TalkFault> = Some(TalkFault::Connect);

const BUSY: Option<TalkFault> = Some(TalkFault::Status(503));

const UNTAKEN: Option<BodyFault> = Some(BodyFault::Refused(400));

const NO_PEER: Option<BodyFault> = Some(BodyFault::GivenUp(TalkFault::Connect));

const SYNTAX: Option<TalkFault> = Some(TalkFault::Page {
    line: 3,
    rule: 4,
    name: "Syntax",
});

const SYNTAX_BELOW: Option<TalkFault> = Some(TalkFault::Page {
    line: 9,
    rule: 4,
    name: "Syntax",
});

/// Visits, and the lines that they bring.
const ROWS: &[(&[Visit], &str)] = &[
    (&[(0, None, None), (60, None, None)], ""),
    (
        &[
            (0, GONE, None),
            (70, GONE, None),
            (140, None, None),
            (210, None, None),
        ],
        "scrape failed: no connection, connection refused\nscraped again, behind 2 that failed\n",
    ),
    // What the minute behind a line brings is said by the next.
    (
        &[
            (0, GONE, None),
            (30, None, None),
            (59, None, None),
            (60, None, None),
        ],
        "scrape failed: no connection, connection refused\nscraped again, behind 1 that failed\n",
    ),
    (
        &[(0, GONE, None), (30, BUSY, UNTAKEN), (60, BUSY, UNTAKEN)],
        "scrape failed: no connection, connection refused\nscrape failed: status 503; body refused, status 400\n",
    ),
    // Those that failed are told also where all is well when the minute is over.
    (
        &[
            (0, None, UNTAKEN),
            (60, None, None),
            (75, None, NO_PEER),
            (90, None, None),
            (120, None, None),
        ],
        "body refused, status 400\nbodies taken again, behind 1 that were not\nbodies taken again, behind 1 that were not\n",
    ),
    // The line of a page's fault may be another one in each scrape.
    (
        &[
            (0, SYNTAX, None),
            (60, SYNTAX_BELOW, None),
            (120, BUSY, NO_PEER),
        ],
        "scrape failed: refused line 3 rule 4 Syntax\nscrape failed: status 503; body given up, no connection\n",
    ),
];

#[test]
fn changes_are_said_once_and_at_most_one_line_a_minute(rt: HostRuntime) {
    for (visits, lines) in ROWS {
        assert!(rt; is_said(rt.alloc(), visits, lines) == Ok(true), "{lines}");
    }
}

/// How many lines two halts bring behind a line that was just said.
fn halts_said() -> u32 {
    let mut lines = Lines::new();
    let _fault = lines.visited(GONE, None, Reason::TimedOut, 0);
    let first = u32::from(lines.halted().is_some());
    first + u32::from(lines.halted().is_some())
}

#[test]
fn a_halt_is_said_at_once_and_once(rt: HostRuntime) {
    assert!(rt; halts_said() == 1);
}
