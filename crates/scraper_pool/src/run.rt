//! A whole run, and the visits that its caller makes itself.
ghost use Rattle.std.specs.Prelude.{◌≡◌, ◌<◌, None, IfOk, IfErr, IfSome, option_map};
ghost use Rattle.series_table.specs.HttpTalks.{talking};
ghost use Rattle.target_table.specs.declared.table.TableFault.TheVariants as table_faults;
ghost use Rattle.target_table.specs.Runs.{IsRightRun};
ghost use Rattle.series_table.specs.Tracks.{AreTracks, AreUnvisited};
ghost use Rattle.target_table.specs.Tables.{next_place, IsRunOver};
ghost use Rattle.scraper_pool.specs.declared.run.RunFault.TheVariants as faults;
ghost use Rattle.scraper_pool.specs.declared.turn.Turn.TheVariants as turns;
ghost use Rattle.scraper_pool.specs.Federating.{IsSelectedPage};
ghost use Rattle.scraper_pool.specs.Serving.{IsUnopened, ServesAt};
ghost use Rattle.scraper_pool.specs.Turns.{run_of};

use crate::pool::Pool;
use crate::turn::Turn;
use bridge_ports::{Conn, Door, MemoryConn, MemoryDoor, Wire};
use std::alloc::Global;
use std::marker::Brand;
use std::sync::Wait;
use std::sync::ledger::Blank;
use std::thread::Threads;
use target_table::{Blanks, Lane, RunName, Seat, Table, TableFault, Track};

/// What a run gives back.
pub struct Ended<W: Wire, E> {
    /// The tracks of all targets, in order.
    pub tracks: Vec<Track<W>>,
    /// The door that it was given, if any.
    pub door: Option<E>,
    /// How many connections of the door were answered.
    pub served: u32,
}

/// Why there was no run.
pub enum RunFault<W: Wire, E> {
    /// There was no memory for the table; these are the tracks and the door, as they were given.
    Memory(Vec<Track<W>>, Option<E>),
}

// Makes the visit whose turn it is, where one is left.
fn visit_one<N: RunName, A: Lane, B: Lane, C: Lane, D: Lane, W: Wire, S: Seat<A, B, C, D>>(
    alloc: Global,
    table: &mut Table<N, A, B, C, D, W>,
    seat: &mut S,
) -> Turn
    requires lane { S.right }
    requires free { S.out seat.old ≡ 0 }
    ensures free { S.out seat.new ≡ 0 }
    ensures none { result ≡ turns.Nothing → next_place N.run.rounds table.new.slots ≡ None }
{
    let Some(lease) = table.take(seat) else {
        return Turn::Nothing;
    };
    let mut lease = lease;
    let _visited = lease.track.visit(alloc);
    table.put(seat, lease);
    Turn::Visited
}

/// Makes the visits that are left.
pub(crate) fn visit_rest<
    N: RunName,
    A: Lane,
    B: Lane,
    C: Lane,
    D: Lane,
    W: Wire,
    S: Seat<A, B, C, D>,
    R: Wait,
>(rt: &R, alloc: Global, table: &mut Table<N, A, B, C, D, W>, seat: &mut S)
    requires lane { S.right }
    requires free { S.out seat.old ≡ 0 }
    ensures free { S.out seat.new ≡ 0 }
    ensures none { next_place N.run.rounds table.new.slots ≡ None }
{
    for _ in rt.forever() {
        match visit_one(alloc, table, seat) {
            Turn::Visited => {}
            Turn::Nothing => return,
        }
    }
    unreachable!()
}

/// Visits the targets of these tracks, each so often, by so many workers, but at most four, and serves so many
/// connections of a door beside them, where one is given.
///
/// # Errors
///
/// Want of memory for the table: the tracks and the door are given back as they were.
pub fn run_with_door<W: Wire, K: Conn, E: Door<Conn = K>, R: Threads + Wait + Sync>(
    rt: &R,
    alloc: Global,
    tracks: Vec<Track<W>>,
    rounds: u32,
    scrapers: u32,
    door: Option<E>,
    pages: u32,
) -> Result<Ended<W, E>, RunFault<W, E>>
    requires run { IsRightRun (run_of rounds tracks.items) }
    requires tracks { AreTracks talking 0 (run_of rounds tracks.items).targets tracks.items }
    requires unvisited { AreUnvisited tracks.items }
    requires fresh { IfSome door (λ d. IsUnopened (E.door d)) }
    ensures over { IfOk result (λ ended. IsRunOver talking (run_of rounds tracks.items) ended.tracks.items) }
    ensures served { IfOk result (λ ended. ServesAt (IsSelectedPage talking (run_of rounds tracks.items)) pages (option_map E.door door) (option_map E.door ended.door) ended.served) }
    ensures back { IfErr result (λ fault. fault ≡ faults.Memory tracks door) }
{
    let blanks = Blanks {
        a: Blank::new(1),
        b: Blank::new(1),
        c: Blank::new(1),
        d: Blank::new(1),
    };
    Pool::<Brand, Brand, Brand, Brand, Brand, W>::run_named::<K, E, R>(
        rt, alloc, tracks, rounds, blanks, scrapers, door, pages,
    )
}

/// Visits the targets of these tracks, each so often, by so many workers, but at most four. Nothing is served.
///
/// # Errors
///
/// Want of memory for the table: the tracks are given back.
///
/// # Example
///
/// ```rust
/// // Six targets that show a page, whose bodies are taken, are visited three times each by four workers.
/// let tracks = run_targets(&rt, alloc, tracks, 3, 4)?;
/// for track in tracks.as_slice() {
///     let counts = track.counts();
///     assert_eq!(rt; (counts.visits, counts.failed, counts.accepted), (3, 0, 3));
/// }
/// ```
pub fn run_targets<W: Wire, R: Threads + Wait + Sync>(
    rt: &R,
    alloc: Global,
    tracks: Vec<Track<W>>,
    rounds: u32,
    scrapers: u32,
) -> Result<Vec<Track<W>>, TableFault<W>>
    requires run { IsRightRun (run_of rounds tracks.items) }
    requires tracks { AreTracks talking 0 (run_of rounds tracks.items).targets tracks.items }
    requires unvisited { AreUnvisited tracks.items }
    ensures over { IfOk result (λ visited. IsRunOver talking (run_of rounds tracks.items) visited.items) }
    ensures back { IfErr result (λ fault. fault ≡ table_faults.Memory tracks) }
{
    let door: Option<MemoryDoor> = None;
    match run_with_door::<W, MemoryConn, MemoryDoor, R>(
        rt, alloc, tracks, rounds, scrapers, door, 0,
    ) {
        Ok(ended) => {
            let Ended {
                tracks,
                door: _,
                served: _,
            } = ended;
            Ok(tracks)
        }
        Err(RunFault::Memory(tracks, _door)) => Err(TableFault::Memory(tracks)),
    }
}
