//! The table behind a lock, and a worker's turn.
ghost use Rattle.std.specs.Prelude.{◌≡◌, ◌+◌, None, IfSome, IfNone, IfOk};
ghost use Rattle.series_table.specs.Counting.{as_count};
ghost use Rattle.series_table.specs.HttpTalks.{talking};
ghost use Rattle.target_table.specs.Tables.{MayBePut};
ghost use Rattle.scraper_pool.specs.Federating.{AreSeen, IsSeenPage};
ghost use Rattle.scraper_pool.specs.Turns.{IsTurn, seated};

use crate::turn::Turn;
use bridge_ports::Wire;
use federation_page::gather;
use label_sets::Memory;
use page_model::{Page, Shown};
use std::alloc::{AllocError, Global};
use std::sync::{Mutex, Wait};
use target_table::{Lane, Lease, RunName, Seat, Table};

/// A table of targets that several workers share.
pub struct Pool<N: RunName, A: Lane, B: Lane, C: Lane, D: Lane, W: Wire> {
    pub(crate) table: Mutex<Table<N, A, B, C, D, W>>,
}

impl<N: RunName, A: Lane, B: Lane, C: Lane, D: Lane, W: Wire> Pool<N, A, B, C, D, W> {
    /// The pool of a table.
    pub fn new(table: Table<N, A, B, C, D, W>) -> Pool<N, A, B, C, D, W> {
        Pool {
            table: Mutex::new(table),
        }
    }

    // Takes the target whose turn it is.
    fn take<S: Seat<A, B, C, D>, R: Wait>(&self, rt: &R, seat: &mut S) -> Option<Lease<N, W>>
        requires lane { S.right }
        requires free { S.out seat.old ≡ 0 }
        ensures fresh { IfSome result (λ l. (l.from ≡ l.track.counts.visits) × (l.track.second ≡ None)) }
        ensures out { IfSome result (λ l. (S.out seat.new ≡ l.number) × (S.takes seat.new ≡ as_count (S.takes seat.old + 1)) × (S.rests seat.new ≡ S.rests seat.old)) }
        ensures idle { IfNone result ((S.out seat.new ≡ 0) × (S.takes seat.new ≡ S.takes seat.old) × (S.rests seat.new ≡ as_count (S.rests seat.old + 1))) }
    {
        self.table.lock(rt).take(seat)
    }

    // Puts back the target that is out with a seat.
    fn put<S: Seat<A, B, C, D>, R: Wait>(&self, rt: &R, seat: &mut S, lease: Lease<N, W>)
        requires lane { S.right }
        requires held { S.out seat.old ≡ lease.number }
        requires due { MayBePut (record { number = lease.number; track = lease.track; from = lease.from }) }
        ensures { (S.out seat.new ≡ 0) × (S.takes seat.new ≡ S.takes seat.old) × (S.rests seat.new ≡ S.rests seat.old) }
    {
        self.table.lock(rt).put(seat, lease);
    }

    /// A turn of a worker: takes the target whose turn it is, visits it outside of the lock, and puts it back.
    pub fn visit_next<S: Seat<A, B, C, D>, R: Wait>(
        &self,
        rt: &R,
        alloc: Global,
        seat: &mut S,
    ) -> Turn
        requires lane { S.right }
        requires free { S.out seat.old ≡ 0 }
        ensures { IsTurn (seated (S.out seat.old) (S.takes seat.old) (S.rests seat.old))
            (seated (S.out seat.new) (S.takes seat.new) (S.rests seat.new)) result }
    {
        let Some(lease) = self.take(rt, seat) else {
            return Turn::Nothing;
        };
        let mut lease = lease;
        let _visited = lease.track.visit(alloc);
        self.put(rt, seat, lease);
        Turn::Visited
    }

    // What readers see of each target, in order.
    fn shown<R: Wait>(&self, rt: &R, alloc: Global) -> Result<Vec<Shown>, Memory>
        ensures { IfOk result (λ shown. AreSeen talking N.run shown.items) }
    {
        self.table.lock(rt).shown(alloc)
    }

    /// The federation page of what readers see. The lock is held while that is copied, and not while it is gathered.
    ///
    /// # Errors
    ///
    /// Want of memory.
    pub fn gathered<R: Wait>(&self, rt: &R, alloc: Global) -> Result<Page, Memory>
        ensures { IfOk result (λ page. IsSeenPage talking N.run page) }
    {
        match self.shown(rt, alloc) {
            Ok(shown) => gather(alloc, shown.as_slice()),
            Err(AllocError) => Err(AllocError),
        }
    }
}
