//! What visits tell the wire of scrapes, over wires that write it down.
ghost use Rattle.std.specs.Prelude.{IfOk};
ghost use Rattle.bridge_ports.specs.Plans.{seen_of};
ghost use Rattle.series_table.specs.Records.{IsFresh};

use crate::calls::noted_wire::{MOST_TOLD, NotedWire, noted_track, visit_often};
use crate::calls::plans::{Planned, replies};
use bridge_ports::{BodyFault, End, MemoryWire, Notice, Place, TalkFault};
use label_sets::List;
use series_table::Track;
use std::alloc::{AllocError, Global};

/// A wire that answers these replies, past them that connections fail, and of whose calls of `ready` that of this number
/// answers want of memory.
fn telling(
    alloc: Global,
    post: bool,
    plan: &[Planned<'_>],
    lean: u32,
) -> Result<NotedWire, AllocError>
    ensures { IfOk result (λ w. IsFresh (seen_of w.wire)) }
{
    let place = Place { number: 1, post };
    let none = List::new(alloc);
    let mut wire = MemoryWire::new(alloc, place, replies(alloc, plan)?, None, 4_096, none);
    wire.lean_at(lean);
    Ok(NotedWire::over(wire))
}

/// What three visits of a track tell.
fn told_by(alloc: Global, mut track: Track<NotedWire>) -> [Option<Notice>; MOST_TOLD] {
    visit_often(alloc, &mut track, 3);
    let (scrape, post) = track.into_wires();
    let told = scrape.told;
    drop(scrape);
    drop(post);
    told
}

/// Whether three visits over wires with these replies tell this, where that call of `ready` for a post finds no memory.
fn tell(
    alloc: Global,
    scrapes: &[Planned<'_>],
    posts: &[Planned<'_>],
    lean: u32,
    expected: &[Option<Notice>],
) -> Result<bool, AllocError> {
    let scrape = telling(alloc, false, scrapes, 0)?;
    let post = match telling(alloc, true, posts, lean) {
        Ok(post) => post,
        Err(AllocError) => {
            drop(scrape);
            return Err(AllocError);
        }
    };
    let track = noted_track(alloc, scrape, post)?;
    let told = told_by(alloc, track);
    Ok(told.as_slice() == expected)
}

const GOOD: Planned<'static> = (b"HTTP/1.1 200 OK\r\n\r\nx 1\n", End::Ended);

const FAULTY: Planned<'static> = (b"HTTP/1.1 200 OK\r\n\r\nx 1\n}\n", End::Ended);

const CUT_OFF: Planned<'static> = (
    b"HTTP/1.1 200 OK\r\nContent-Length: 9\r\n\r\nx 1\n}\n",
    End::Ended,
);

const UNREAD: Planned<'static> = (b"HTTP/1.1 200 OK\r\n\r\nx 1\n}\n", End::ReadFailed);

const UNASKED: Planned<'static> = (b"", End::WriteFailed);

const ABSENT: Planned<'static> = (b"HTTP/1.1 404 No\r\n\r\n", End::Ended);

const TAKEN: Planned<'static> = (b"HTTP/1.1 200 OK\r\n\r\n", End::Ended);

const LATER: Planned<'static> = (b"HTTP/1.1 503 Later\r\n\r\n", End::Ended);

const REFUSED: Planned<'static> = (b"HTTP/1.1 400 No\r\n\r\n", End::Ended);

const WELL: Option<Notice> = Some(Notice::Visited {
    scrape: None,
    body: None,
});

/// A row of replies to scrapes and to posts, the call of `ready` that finds no memory, and what is told.
type Row = (
    &'static [Planned<'static>],
    &'static [Planned<'static>],
    u32,
    &'static [Option<Notice>],
);

const ROWS: &[Row] = &[
    // The second body is given up behind its third try, and the third scrape finds nobody.
    (
        &[ABSENT, FAULTY],
        &[REFUSED, LATER, LATER, LATER, TAKEN],
        0,
        &[
            Some(Notice::Visited {
                scrape: Some(TalkFault::Status(404)),
                body: Some(BodyFault::Refused(400)),
            }),
            Some(Notice::Visited {
                scrape: Some(TalkFault::Page {
                    line: 2,
                    rule: 4,
                    name: "Syntax",
                }),
                body: Some(BodyFault::GivenUp(TalkFault::Status(503))),
            }),
            Some(Notice::Visited {
                scrape: Some(TalkFault::Connect),
                body: None,
            }),
        ],
    ),
    // That the reply was not whole goes in front of its page's faults, and a read that failed in front of both.
    (
        &[CUT_OFF, UNREAD, UNASKED],
        &[TAKEN, TAKEN, TAKEN],
        0,
        &[
            Some(Notice::Visited {
                scrape: Some(TalkFault::Truncated),
                body: None,
            }),
            Some(Notice::Visited {
                scrape: Some(TalkFault::Read),
                body: None,
            }),
            Some(Notice::Visited {
                scrape: Some(TalkFault::Write),
                body: None,
            }),
        ],
    ),
    (
        &[GOOD, GOOD, GOOD],
        &[TAKEN],
        2,
        &[WELL, Some(Notice::Halted), Some(Notice::Halted)],
    ),
];

#[test]
fn visits_tell_what_they_came_to(rt: HostRuntime) {
    for (scrapes, posts, lean, expected) in ROWS {
        assert!(rt; tell(rt.alloc(), scrapes, posts, *lean, expected) == Ok(true));
    }
}
