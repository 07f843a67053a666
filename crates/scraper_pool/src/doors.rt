//! The connections of a door, one after the other.
ghost use Rattle.std.specs.Prelude.{◌≡◌, ◌<◌, false, IfOk, OnErr};
ghost use Rattle.bridge_ports.specs.Doors.{most_handed};
ghost use Rattle.series_table.specs.HttpTalks.{talking};
ghost use Rattle.scraper_pool.specs.Federating.{IsSelectedPage};
ghost use Rattle.scraper_pool.specs.Serving.{served_count, ServedOne, HasRefused, IsUnopened, HasServed};

use crate::pool::Pool;
use bridge_ports::{Conn, Door, Failed, Wire};
use page_server::{ReplyStatus, ServeFault};
use std::alloc::Global;
use std::snapshot::Snapshot;
use std::sync::Wait;
use target_table::{Lane, RunName};

/// A connection that was served.
#[derive(Drop)]
struct Served<K> {
    /// How many were answered, one or none.
    count: u32,
    /// The connection as it was handed out, which only proofs read.
    fresh: Snapshot<K>,
    /// The same as it was taken back.
    back: Snapshot<K>,
}

/// How many connections such an answer counts.
fn served_count(answer: Result<ReplyStatus, ServeFault>) -> u32
    ensures { result ≡ served_count answer }
{
    match answer {
        Ok(_) => 1,
        Err(_) => 0,
    }
}

impl<N: RunName, A: Lane, B: Lane, C: Lane, D: Lane, W: Wire> Pool<N, A, B, C, D, W> {
    // Serves the next connection of a door, and gives it back.
    fn serve_next<K: Conn, E: Door<Conn = K>, R: Wait>(
        &self,
        rt: &R,
        alloc: Global,
        door: &mut E,
    ) -> Result<Served<K>, Failed>
        requires home { (E.door door.old).out ≡ false }
        requires few { (E.door door.old).handed < most_handed }
        ensures served { IfOk result (λ s. ServedOne (IsSelectedPage talking N.run) (E.door door.old) (E.door door.new)
            (K.seen s.fresh.value) (K.seen s.back.value) s.count) }
        ensures refused { OnErr result (HasRefused (E.door door.old) (E.door door.new)) }
    {
        match door.accept() {
            Ok(conn) => {
                let fresh = Snapshot::of(&conn);
                let mut conn = conn;
                let count = served_count(self.serve_one(rt, alloc, &mut conn));
                let back = Snapshot::of(&conn);
                door.close(conn);
                Ok(Served { count, fresh, back })
            }
            Err(Failed) => Err(Failed),
        }
    }

    // Serves so many connections of a door, and ends at the first that it can't hand out: how many were answered.
    fn serve_pages<K: Conn, E: Door<Conn = K>, R: Wait>(
        &self,
        rt: &R,
        alloc: Global,
        door: &mut E,
        pages: u32,
    ) -> u32
        requires { IsUnopened (E.door door.old) }
        ensures { HasServed (IsSelectedPage talking N.run) pages (E.door door.old) (E.door door.new) result }
    {
        let mut served = 0;
        for _ in 0..pages {
            match self.serve_next(rt, alloc, door) {
                Ok(one) => served += one.count,
                Err(Failed) => return served,
            }
        }
        served
    }

    /// The same, and shuts the door behind the last of them, which may be long before the run ends. It gives the door
    /// back.
    pub(crate) fn serve_door<K: Conn, E: Door<Conn = K>, R: Wait>(
        &self,
        rt: &R,
        alloc: Global,
        door: E,
        pages: u32,
    ) -> (E, u32)
        requires { IsUnopened (E.door door) }
        ensures { HasServed (IsSelectedPage talking N.run) pages (E.door door) (E.door result.0) result.1 }
    {
        let mut door = door;
        let served = self.serve_pages(rt, alloc, &mut door, pages);
        door.shut();
        (door, served)
    }
}
