//! What readers of a pool see before a visit and behind it.
ghost use Rattle.std.specs.Prelude.{◌≡◌, ◌<◌};
ghost use Rattle.series_table.specs.HttpTalks.{talking};
ghost use Rattle.series_table.specs.Tracks.{AreTracks, AreUnvisited};
ghost use Rattle.target_table.specs.Runs.{IsRightRun};
ghost use Rattle.scraper_pool.specs.Turns.{IsFreeLane, run_of};

use crate::calls::one_track::{close, tracks};
use bridge_ports::{MemoryDoor, MemoryWire};
use label_sets::Memory;
use scraper_pool::{Ended, Lane, Pool, RunName, Share, Shares, Table, TableFault, Track};
use std::alloc::Global;
use std::marker::Brand;
use std::sync::Wait;
use std::sync::ledger::Blank;
use std::thread::Threads;
use target_table::{Blanks, First};

const REPLY: &[u8] = b"HTTP/1.1 200 OK\r\n\r\nx 1\n";

const OPENING: &str = "# EOF\n";

const PAGE: &str = "# TYPE x unknown\nx{instance=\"h:1\",job=\"j\"} 1\n# EOF\n";

/// Whether this is the page of what readers see.
fn is_page_now<N: RunName, A: Lane, B: Lane, C: Lane, D: Lane, R: Wait>(
    rt: &R,
    alloc: Global,
    pool: &Pool<N, A, B, C, D, MemoryWire>,
    expected: &str,
) -> Result<bool, Memory> {
    let page = pool.gathered(rt, alloc)?;
    let mut text = Vec::new(alloc);
    federation_page::text(&page, &mut text)?;
    Ok(text.as_slice() == expected.as_bytes())
}

/// Whether readers see the opening page before a visit, and its page behind it.
type SeenPages = (Result<bool, Memory>, Result<bool, Memory>);

/// Makes a visit between two looks at the page.
fn seen_pages<N: RunName, A: Lane, B: Lane, C: Lane, D: Lane, R: Wait>(
    rt: &R,
    alloc: Global,
    pool: &Pool<N, A, B, C, D, MemoryWire>,
    share: Share<First, A>,
) -> (Share<First, A>, SeenPages)
    requires { IsFreeLane A.all A.parts share.held }
    ensures { result.0.held ≡ 0 }
{
    let mut share = share;
    let before = is_page_now(rt, alloc, pool, OPENING);
    let _turn = pool.visit_next(rt, alloc, &mut share);
    let behind = is_page_now(rt, alloc, pool, PAGE);
    (share, (before, behind))
}

// Under one name of a run and of its four lanes.
fn watch_named<
    R: Threads + Wait + Sync,
    N: RunName + Send + Sync,
    A: Lane + Send + Sync,
    B: Lane + Send + Sync,
    C: Lane + Send + Sync,
    D: Lane + Send + Sync,
>(
    rt: &R,
    alloc: Global,
    tracks: Vec<Track<MemoryWire>>,
    blanks: Blanks,
) -> (Vec<Track<MemoryWire>>, Option<SeenPages>)
    requires run { IsRightRun N.run }
    requires rounds { 1 ≡ N.run.rounds }
    requires tracks { AreTracks talking 0 N.run.targets tracks.items }
    requires unvisited { AreUnvisited tracks.items }
    requires a { (blanks.a.name ≡ A.name) × (blanks.a.parts ≡ A.parts) × (A.all ≡ A.parts) × (0 < A.all) }
    requires b { (blanks.b.name ≡ B.name) × (blanks.b.parts ≡ B.parts) × (B.all ≡ B.parts) × (0 < B.all) }
    requires c { (blanks.c.name ≡ C.name) × (blanks.c.parts ≡ C.parts) × (C.all ≡ C.parts) × (0 < C.all) }
    requires d { (blanks.d.name ≡ D.name) × (blanks.d.parts ≡ D.parts) × (D.all ≡ D.parts) × (0 < D.all) }
{
    match Table::<N, A, B, C, D, MemoryWire>::new(alloc, tracks, 1, blanks) {
        Ok((table, shares)) => {
            let pool = Pool::new(table);
            let Shares { a, b, c, d } = shares;
            let (a, pages) = seen_pages(rt, alloc, &pool, a);
            let door: Option<MemoryDoor> = None;
            let Ended {
                tracks,
                door: _,
                served: _,
            } = pool.run(rt, alloc, Shares { a, b, c, d }, 0, door, 0);
            (tracks, Some(pages))
        }
        Err(TableFault::Memory(tracks)) => (tracks, None),
    }
}

/// What readers see before a visit and behind it, and the tracks once their run is over.
fn watch<R: Threads + Wait + Sync>(
    rt: &R,
    alloc: Global,
    tracks: Vec<Track<MemoryWire>>,
) -> (Vec<Track<MemoryWire>>, Option<SeenPages>)
    requires run { IsRightRun (run_of 1 tracks.items) }
    requires tracks { AreTracks talking 0 (run_of 1 tracks.items).targets tracks.items }
    requires unvisited { AreUnvisited tracks.items }
{
    let blanks = Blanks {
        a: Blank::new(1),
        b: Blank::new(1),
        c: Blank::new(1),
        d: Blank::new(1),
    };
    watch_named::<R, Brand, Brand, Brand, Brand, Brand>(rt, alloc, tracks, blanks)
}

/// Watches the run of one target, which is visited once.
fn watch_one_visit<R: Threads + Wait + Sync>(
    rt: &R,
    alloc: Global,
) -> Result<Option<SeenPages>, Memory> {
    let tracks = tracks(alloc, REPLY)?;
    let (tracks, pages) = watch(rt, alloc, tracks);
    close(tracks);
    Ok(pages)
}

// Readers see the opening page until a visit is made, and from then on its page.
#[test]
fn gathered_sees_a_visit(rt: HostRuntime) {
    let seen = watch_one_visit(&rt, rt.alloc());
    assert!(rt; seen == Ok(Some((Ok(true), Ok(true)))));
}
