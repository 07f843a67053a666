//! The workers: one for each lane and one for a door, each in a thread of its own where one can be made; and a run, which
//! is their work and what they leave.
ghost use Rattle.std.specs.Prelude.{◌≡◌, ◌<◌, nat_lt, IfOk, IfErr, IfSome, option_map};
ghost use Rattle.std.specs.Thread.{IsSync};
ghost use Rattle.series_table.specs.HttpTalks.{talking};
ghost use Rattle.target_table.specs.Runs.{IsRightRun};
ghost use Rattle.series_table.specs.Tracks.{AreTracks, AreUnvisited};
ghost use Rattle.target_table.specs.Tables.{IsRunOver};
ghost use Rattle.scraper_pool.specs.declared.run.RunFault.TheVariants as faults;
ghost use Rattle.scraper_pool.specs.Federating.{IsSelectedPage};
ghost use Rattle.scraper_pool.specs.Serving.{IsUnopened, ServesAt};
ghost use Rattle.scraper_pool.specs.Turns.{IsFreeLane, IsWork, seated};

use crate::pool::Pool;
use crate::run::{Ended, RunFault, visit_rest};
use crate::turn::Turn;
use bridge_ports::{Conn, Door, Wire};
use std::alloc::Global;
use std::sync::Wait;
use std::thread::{Threads, join};
use target_table::{
    Blanks, First, Fourth, Lane, RunName, Seat, Second, Share, Shares, Table, TableFault, Third,
    Track,
};

impl<N: RunName, A: Lane, B: Lane, C: Lane, D: Lane, W: Wire> Pool<N, A, B, C, D, W> {
    // The work of a lane, which ends at once where it is not asked for.
    fn work<S: Seat<A, B, C, D>, R: Wait>(
        &self,
        rt: &R,
        alloc: Global,
        seat: S,
        is_asked: bool,
    ) -> S
        requires lane { S.right }
        requires free { S.out seat ≡ 0 }
        ensures work { IsWork is_asked (seated (S.out seat) (S.takes seat) (S.rests seat)) (seated (S.out result) (S.takes result) (S.rests result)) }
        ensures home { S.out result ≡ 0 }
    {
        let mut seat = seat;
        if !is_asked {
            return seat;
        }
        for _ in rt.forever() {
            match self.visit_next(rt, alloc, &mut seat) {
                Turn::Visited => {}
                Turn::Nothing => return seat,
            }
        }
        unreachable!()
    }
}

impl<
    N: RunName + Send + Sync,
    A: Lane + Send + Sync,
    B: Lane + Send + Sync,
    C: Lane + Send + Sync,
    D: Lane + Send + Sync,
    W: Wire,
> Pool<N, A, B, C, D, W> {
    // The work of the last two lanes.
    fn work_last<R: Threads + Wait + Sync>(
        &self,
        rt: &R,
        alloc: Global,
        c: Share<Third, C>,
        d: Share<Fourth, D>,
        scrapers: u32,
    ) -> (Share<Third, C>, Share<Fourth, D>)
        requires c { IsFreeLane C.all C.parts c.held }
        requires d { IsFreeLane D.all D.parts d.held }
        ensures c { IsWork (nat_lt 2 scrapers) (seated c.held c.taken c.idle) (seated result.0.held result.0.taken result.0.idle) }
        ensures d { IsWork (nat_lt 3 scrapers) (seated d.held d.taken d.idle) (seated result.1.held result.1.taken result.1.idle) }
        ensures home { (result.0.held ≡ 0) × (result.1.held ≡ 0) }
    {
        join(
            rt,
            || -> Share<Third, C>
                requires { IsSync R.row × IsFreeLane C.all C.parts c.held }
            { self.work(rt, alloc, c, 2 < scrapers) },
            || -> Share<Fourth, D>
                requires { IsSync R.row × IsFreeLane D.all D.parts d.held }
            { self.work(rt, alloc, d, 3 < scrapers) },
        )
    }

    // The work of the last three lanes.
    fn work_later<R: Threads + Wait + Sync>(
        &self,
        rt: &R,
        alloc: Global,
        b: Share<Second, B>,
        c: Share<Third, C>,
        d: Share<Fourth, D>,
        scrapers: u32,
    ) -> (Share<Second, B>, (Share<Third, C>, Share<Fourth, D>))
        requires b { IsFreeLane B.all B.parts b.held }
        requires c { IsFreeLane C.all C.parts c.held }
        requires d { IsFreeLane D.all D.parts d.held }
        ensures b { IsWork (nat_lt 1 scrapers) (seated b.held b.taken b.idle) (seated result.0.held result.0.taken result.0.idle) }
        ensures c { IsWork (nat_lt 2 scrapers) (seated c.held c.taken c.idle) (seated result.1.0.held result.1.0.taken result.1.0.idle) }
        ensures d { IsWork (nat_lt 3 scrapers) (seated d.held d.taken d.idle) (seated result.1.1.held result.1.1.taken result.1.1.idle) }
        ensures home { (result.0.held ≡ 0) × (result.1.0.held ≡ 0) × (result.1.1.held ≡ 0) }
    {
        join(
            rt,
            || -> Share<Second, B>
                requires { IsSync R.row × IsFreeLane B.all B.parts b.held }
            { self.work(rt, alloc, b, 1 < scrapers) },
            || -> (Share<Third, C>, Share<Fourth, D>)
                requires { IsSync R.row × IsFreeLane C.all C.parts c.held × IsFreeLane D.all D.parts d.held }
            { self.work_last(rt, alloc, c, d, scrapers) },
        )
    }

    /// Has as many workers as `scrapers` says, but at most four, take turns until they find none to take. Each has a
    /// lane of its own, and gives the lane's share back.
    pub(crate) fn work_all<R: Threads + Wait + Sync>(
        &self,
        rt: &R,
        alloc: Global,
        shares: Shares<A, B, C, D>,
        scrapers: u32,
    ) -> Shares<A, B, C, D>
        requires a { IsFreeLane A.all A.parts shares.a.held }
        requires b { IsFreeLane B.all B.parts shares.b.held }
        requires c { IsFreeLane C.all C.parts shares.c.held }
        requires d { IsFreeLane D.all D.parts shares.d.held }
        ensures a { IsWork (nat_lt 0 scrapers) (seated shares.a.held shares.a.taken shares.a.idle) (seated result.a.held result.a.taken result.a.idle) }
        ensures b { IsWork (nat_lt 1 scrapers) (seated shares.b.held shares.b.taken shares.b.idle) (seated result.b.held result.b.taken result.b.idle) }
        ensures c { IsWork (nat_lt 2 scrapers) (seated shares.c.held shares.c.taken shares.c.idle) (seated result.c.held result.c.taken result.c.idle) }
        ensures d { IsWork (nat_lt 3 scrapers) (seated shares.d.held shares.d.taken shares.d.idle) (seated result.d.held result.d.taken result.d.idle) }
        ensures home { (result.a.held ≡ 0) × (result.b.held ≡ 0) × (result.c.held ≡ 0) × (result.d.held ≡ 0) }
    {
        let Shares { a, b, c, d } = shares;
        let (a, (b, (c, d))) = join(
            rt,
            || -> Share<First, A>
                requires { IsSync R.row × IsFreeLane A.all A.parts a.held }
            { self.work(rt, alloc, a, 0 < scrapers) },
            || -> (Share<Second, B>, (Share<Third, C>, Share<Fourth, D>))
                requires { IsSync R.row × IsFreeLane B.all B.parts b.held × IsFreeLane C.all C.parts c.held × IsFreeLane D.all D.parts d.held }
            { self.work_later(rt, alloc, b, c, d, scrapers) },
        );
        Shares { a, b, c, d }
    }

    /// The work of all lanes, and beside it that of a door, where one is given: so many of its connections are served.
    /// The door is given back, with how many were answered.
    pub(crate) fn work_beside<K: Conn, E: Door<Conn = K>, R: Threads + Wait + Sync>(
        &self,
        rt: &R,
        alloc: Global,
        door: Option<E>,
        pages: u32,
        shares: Shares<A, B, C, D>,
        scrapers: u32,
    ) -> (Shares<A, B, C, D>, Option<E>, u32)
        requires a { IsFreeLane A.all A.parts shares.a.held }
        requires b { IsFreeLane B.all B.parts shares.b.held }
        requires c { IsFreeLane C.all C.parts shares.c.held }
        requires d { IsFreeLane D.all D.parts shares.d.held }
        requires fresh { IfSome door (λ d. IsUnopened (E.door d)) }
        ensures home { (result.0.a.held ≡ 0) × (result.0.b.held ≡ 0) × (result.0.c.held ≡ 0) × (result.0.d.held ≡ 0) }
        ensures served { ServesAt (IsSelectedPage talking N.run) pages (option_map E.door door) (option_map E.door result.1) result.2 }
    {
        let Some(door) = door else {
            return (self.work_all(rt, alloc, shares, scrapers), None, 0);
        };
        let (shares, (door, served)) = join(
            rt,
            || -> Shares<A, B, C, D>
                requires sync { IsSync R.row }
                requires a { IsFreeLane A.all A.parts shares.a.held }
                requires b { IsFreeLane B.all B.parts shares.b.held }
                requires c { IsFreeLane C.all C.parts shares.c.held }
                requires d { IsFreeLane D.all D.parts shares.d.held }
            { self.work_all(rt, alloc, shares, scrapers) },
            || -> (E, u32)
                requires { IsSync R.row × IsUnopened (E.door door) }
            { self.serve_door(rt, alloc, door, pages) },
        );
        (shares, Some(door), served)
    }

    /// Visits all targets, by as many workers as `scrapers` says, but at most four. What they leave is visited by the
    /// caller itself, so each target has all its visits, but for those that are halted.
    ///
    /// Where a door is given, one worker more serves `pages` of its connections, and ends at the first that the door
    /// can't hand out. A connection that was not answered, since a read or a write of it failed or there was no memory
    /// for the page, is not counted.
    pub fn run<K: Conn, E: Door<Conn = K>, R: Threads + Wait + Sync>(
        self,
        rt: &R,
        alloc: Global,
        shares: Shares<A, B, C, D>,
        scrapers: u32,
        door: Option<E>,
        pages: u32,
    ) -> Ended<W, E>
        requires a { IsFreeLane A.all A.parts shares.a.held }
        requires b { IsFreeLane B.all B.parts shares.b.held }
        requires c { IsFreeLane C.all C.parts shares.c.held }
        requires d { IsFreeLane D.all D.parts shares.d.held }
        requires fresh { IfSome door (λ d. IsUnopened (E.door d)) }
        ensures over { IsRunOver talking N.run result.tracks.items }
        ensures served { ServesAt (IsSelectedPage talking N.run) pages (option_map E.door door) (option_map E.door result.door) result.served }
    {
        let (shares, door, served) = self.work_beside(rt, alloc, door, pages, shares, scrapers);
        let Pool { table } = self;
        let (mut table, mut shares) = (table.into_inner(), shares);
        visit_rest(rt, alloc, &mut table, &mut shares.a);
        Ended {
            tracks: table.into_tracks(shares),
            door,
            served,
        }
    }

    // A run under one name of it and of its four lanes.
    pub(crate) fn run_named<K: Conn, E: Door<Conn = K>, R: Threads + Wait + Sync>(
        rt: &R,
        alloc: Global,
        tracks: Vec<Track<W>>,
        rounds: u32,
        blanks: Blanks,
        scrapers: u32,
        door: Option<E>,
        pages: u32,
    ) -> Result<Ended<W, E>, RunFault<W, E>>
        requires run { IsRightRun N.run }
        requires rounds { rounds ≡ N.run.rounds }
        requires tracks { AreTracks talking 0 N.run.targets tracks.items }
        requires unvisited { AreUnvisited tracks.items }
        requires fresh { IfSome door (λ d. IsUnopened (E.door d)) }
        requires a { (blanks.a.name ≡ A.name) × (blanks.a.parts ≡ A.parts) × (A.all ≡ A.parts) × (0 < A.all) }
        requires b { (blanks.b.name ≡ B.name) × (blanks.b.parts ≡ B.parts) × (B.all ≡ B.parts) × (0 < B.all) }
        requires c { (blanks.c.name ≡ C.name) × (blanks.c.parts ≡ C.parts) × (C.all ≡ C.parts) × (0 < C.all) }
        requires d { (blanks.d.name ≡ D.name) × (blanks.d.parts ≡ D.parts) × (D.all ≡ D.parts) × (0 < D.all) }
        ensures over { IfOk result (λ ended. IsRunOver talking N.run ended.tracks.items) }
        ensures served { IfOk result (λ ended. ServesAt (IsSelectedPage talking N.run) pages (option_map E.door door) (option_map E.door ended.door) ended.served) }
        ensures back { IfErr result (λ fault. fault ≡ faults.Memory tracks door) }
    {
        match Table::<N, A, B, C, D, W>::new(alloc, tracks, rounds, blanks) {
            Ok((table, shares)) => {
                Ok(Pool::new(table).run(rt, alloc, shares, scrapers, door, pages))
            }
            Err(TableFault::Memory(tracks)) => Err(RunFault::Memory(tracks, door)),
        }
    }
}
