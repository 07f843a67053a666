//! Wires in memory that note when their talks are due and what visits tell them. Contracts see no note: such a wire is the
//! wire in memory in it.
ghost use Rattle.std.specs.Prelude.{◌≡◌, IfOk};
ghost use Rattle.bridge_ports.specs.Plans.{seen_of};
ghost use Rattle.series_table.specs.Records.{IsFresh};

use crate::calls::one_target::target;
use bridge_ports::{Address, End, Failed, MemoryReply, MemoryWire, Notice, Place, Settings, Wire};
use label_sets::{Bytes, List, Memory};
use series_table::{Track, TrackFault};
use std::alloc::{AllocError, Global};

/// A reply that ends behind its bytes, with the reading of the clock at which its talk begins.
pub(crate) type Timed<'a> = (u64, &'a [u8]);

/// Settings by which a body is tried three times, and 10 nanoseconds lie between two scrapes.
const SETTINGS: Settings = Settings {
    keep: 2,
    tries: 3,
    limit: 1_000,
    max_page: 1_024,
    interval: 10,
};

/// How many notices are written down.
pub(crate) const MOST_TOLD: usize = 3;

/// A wire in memory, with what it notes.
#[derive(Drop)]
pub(crate) struct NotedWire {
    wire: MemoryWire,
    /// When the last of its talks were due, the last first; 0 where there were fewer.
    pub(crate) due: [u64; 4],
    /// The first notices of its target.
    pub(crate) told: [Option<Notice>; MOST_TOLD],
    count: usize,
}

impl NotedWire {
    /// One over a wire in memory, which has noted nothing.
    pub(crate) fn over(wire: MemoryWire) -> NotedWire
        ensures { result.wire ≡ wire }
    {
        NotedWire {
            wire,
            due: [0; 4],
            told: [None; MOST_TOLD],
            count: 0,
        }
    }
}

/// The replies in order.
fn timed_replies(alloc: Global, plan: &[Timed<'_>]) -> Result<List<MemoryReply>, AllocError> {
    let mut replies = Vec::new(alloc);
    for (at, got) in plan {
        let reply = MemoryReply {
            at: *at,
            got: Bytes::from_slice(alloc, got)?,
            end: End::Ended,
        };
        if replies.push(reply).is_err() {
            return Err(AllocError);
        }
    }
    List::from_vec(replies)
}

/// A wire that answers these replies.
pub(crate) fn noted_wire(
    alloc: Global,
    post: bool,
    plan: &[Timed<'_>],
) -> Result<NotedWire, AllocError>
    ensures { IfOk result (λ noted. IsFresh (seen_of noted.wire)) }
{
    let place = Place { number: 1, post };
    let replies = timed_replies(alloc, plan)?;
    let wire = MemoryWire::new(alloc, place, replies, None, 4_096, List::new(alloc));
    Ok(NotedWire::over(wire))
}

impl Wire for NotedWire {
    ghost state = { λ w. seen_of w.wire };

    fn ready(&mut self, alloc: Global, count: u32, room: u64) -> Result<(), Memory> {
        self.wire.ready(alloc, count, room)
    }

    fn begin(&mut self, due: u64) -> u64 {
        self.due = [due, self.due[0], self.due[1], self.due[2]];
        self.wire.begin(due)
    }

    fn connect(&mut self) -> Result<(), Failed> {
        self.wire.connect()
    }

    fn write(&mut self, piece: &[u8]) -> Result<u32, Failed> {
        self.wire.write(piece)
    }

    fn read(&mut self, into: &mut [u8]) -> Result<u32, Failed> {
        self.wire.read(into)
    }

    fn leave(&mut self) {
        self.wire.leave()
    }

    fn notice(&mut self, notice: Notice) {
        if self.count < MOST_TOLD {
            self.told[self.count] = Some(notice);
            self.count += 1;
        }
    }
}

/// Where bodies are posted to.
fn collector(alloc: Global) -> Result<Address, Memory> {
    Ok(Address {
        host: Bytes::from_slice(alloc, "h".as_bytes())?,
        port: 1,
        path: Bytes::from_slice(alloc, b"/p")?,
    })
}

/// A track of the target over these wires.
pub(crate) fn noted_track(
    alloc: Global,
    scrape: NotedWire,
    post: NotedWire,
) -> Result<Track<NotedWire>, AllocError>
    requires scrape { IsFresh (seen_of scrape.wire) }
    requires post { IsFresh (seen_of post.wire) }
{
    let (target, to) = (target(alloc)?, collector(alloc)?);
    match Track::new(alloc, target, to, SETTINGS, scrape, post) {
        Ok(track) => Ok(track),
        Err(TrackFault::Memory(_scrape, _post)) => Err(AllocError),
    }
}

/// Makes so many visits, where there are as many more.
pub(crate) fn visit_often(alloc: Global, track: &mut Track<NotedWire>, rounds: u32) {
    for _ in 0..rounds {
        if track.counts().visits < 1_000_000 {
            let _visited = track.visit(alloc);
        }
    }
}
