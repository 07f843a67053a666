//! The run of a configuration over the wires of a world.
ghost use Rattle.std.specs.Prelude.{◌≡◌, None, map, option_map, IfOk, IfErr, IfSome, OnErr};
ghost use Rattle.series_table.specs.HttpTalks.{talking};
ghost use Rattle.series_table.specs.Records.{Kept};
ghost use Rattle.target_table.specs.Tables.{IsRunOver};
ghost use Rattle.scraper_pool.specs.Serving.{IsUnopened};
ghost use Rattle.scraper_pool.specs.Turns.{run_of};
ghost use Rattle.bridge_config.specs.RightConfigs.{IsRightConfig};
ghost use Rattle.world_run.specs.Unused.{AreUnused};
ghost use Rattle.world_run.specs.Ends.{IsRunEnd, IsNotBegun};
ghost use Rattle.world_run.specs.Serving.{ServesRun, IsServedRun, IsUnserved};
ghost use Rattle.run_report.specs.Ends.{track_end};
ghost use Rattle.world_run.specs.Taken.{EachTrack, IsFirstTrack};

use crate::doors::{close_door, open_door};
use crate::ends::renew_ends;
use crate::home::bring_home;
use crate::taking::new_tracks;
use bridge_config::Config;
use bridge_ports::{Conn, Door, Wire, World};
use label_sets::Memory;
use run_report::{TargetEnd, ends_of};
use scraper_pool::{Ended, RunFault, Track, run_with_door};
use std::alloc::{AllocError, Global};
use std::sync::Wait;
use std::thread::Threads;

/// What a run came to.
#[derive(Drop)]
pub struct RunEnd {
    /// How the visits of each target ended, in the order of the configuration.
    pub targets: Vec<TargetEnd>,
    /// How many connections were answered with a page, a refusal or a fault of their request.
    pub served: u32,
}

/// What the visits of tracks came to, beside a door.
struct Visited<W: Wire, E> {
    tracks: Vec<Track<W>>,
    end: RunEnd,
    door: Option<E>,
}

/// Visits the targets of these tracks beside a door, and tells how each ended. Without memory the tracks and the door
/// are given back, the tracks unvisited.
fn visit_all<R: Threads + Wait + Sync, W: Wire, K: Conn, E: Door<Conn = K>>(
    rt: &R,
    alloc: Global,
    config: &Config,
    tracks: Vec<Track<W>>,
    door: Option<E>,
) -> Result<Visited<W, E>, (Vec<Track<W>>, Option<E>)>
    requires right { IsRightConfig config.now }
    requires first { EachTrack (IsFirstTrack config.now) tracks.items }
    requires targets { map (λ (k : Kept). k.followed.target) tracks.items ≡ config.now.targets }
    requires fresh { IfSome door (λ d. IsUnopened (E.door d)) }
    ensures over { IfOk result (λ made. IsRunOver talking (run_of config.now.rounds tracks.items) made.tracks.items) }
    ensures ends { IfOk result (λ made. made.end.targets.items ≡ map track_end made.tracks.items) }
    ensures served { IfOk result (λ made. ServesRun config.now (option_map E.door door) (option_map E.door made.door) made.end.served) }
    ensures back { IfErr result (λ back. back.0.items ≡ tracks.items) }
    ensures door { IfErr result (λ back. back.1 ≡ door) }
{
    let mut ends = match ends_of(alloc, tracks.as_slice()) {
        Ok(ends) => ends,
        Err(AllocError) => return Err((tracks, door)),
    };
    let (rounds, pages, scrapers) = (config.rounds, config.pages, config.scrapers);
    match run_with_door(rt, alloc, tracks, rounds, scrapers, door, pages) {
        Ok(ended) => {
            let Ended {
                tracks,
                door,
                served,
            } = ended;
            renew_ends(&mut ends, tracks.as_slice());
            let end = RunEnd {
                targets: ends,
                served,
            };
            Ok(Visited { tracks, end, door })
        }
        Err(RunFault::Memory(tracks, door)) => Err((tracks, door)),
    }
}

/// What a run came to, where memory was found for it, and the door that it was given.
struct Beside<E> {
    end: Result<RunEnd, Memory>,
    door: Option<E>,
}

/// Visits each target over the wires that the world has for it, beside a door. The wires come home.
fn run_beside<R: Threads + Wait + Sync, K: Conn, E: Door<Conn = K>, W: World<Door = E>>(
    rt: &R,
    alloc: Global,
    config: &Config,
    door: Option<E>,
    world: &mut W,
) -> Beside<E>
    requires right { IsRightConfig config.now }
    requires unused { AreUnused (W.seen world.old).home }
    requires fresh { IfSome door (λ d. IsUnopened (E.door d)) }
    ensures run { IfOk result.end (λ end. IsRunEnd config.now (W.seen world.old) (W.seen world.new) end.targets.items) }
    ensures served { IfOk result.end (λ end. ServesRun config.now (option_map E.door door) (option_map E.door result.door) end.served) }
    ensures memory { OnErr result.end (IsNotBegun config.now (W.seen world.old) (W.seen world.new)) }
    ensures door { OnErr result.end (result.door ≡ door) }
{
    let tracks = match new_tracks(alloc, config, world) {
        Ok(tracks) => tracks,
        Err(AllocError) => {
            return Beside {
                end: Err(AllocError),
                door,
            };
        }
    };
    match visit_all(rt, alloc, config, tracks, door) {
        Ok(visited) => {
            let Visited { tracks, end, door } = visited;
            bring_home(world, tracks);
            Beside { end: Ok(end), door }
        }
        Err((tracks, door)) => {
            bring_home(world, tracks);
            Beside {
                end: Err(AllocError),
                door,
            }
        }
    }
}

/// Visits each target of a configuration once for each of its rounds, over the wires that the world has for it, by as
/// many scrapers as the configuration says. Where it has a door that the world can open, one worker more serves as many
/// of its connections as the configuration says, and ends at the first that the door can't hand out. The wires then
/// come home, and the door is given back.
///
/// # Errors
///
/// Want of memory, before the first visit: then no wire was used, each is at home, and of the door nothing was handed
/// out. A target that finds none in a visit is halted, which its end tells.
///
/// # Example
///
/// ```rust
/// // Two rounds of two targets that show a page, whose bodies are taken, and a door at which one connection comes.
/// let end = run_config(&rt, alloc, &config, &mut world)?;
/// assert_eq!(rt; (end.targets.len(), end.served), (2, 1));
/// for target in end.targets.as_slice() {
///     assert_eq!(rt; (target.counts.visits, target.counts.accepted), (2, 2));
/// }
/// ```
pub fn run_config<R: Threads + Wait + Sync, K: Conn, E: Door<Conn = K>, W: World<Door = E>>(
    rt: &R,
    alloc: Global,
    config: &Config,
    world: &mut W,
) -> Result<RunEnd, Memory>
    requires right { IsRightConfig config.now }
    requires unused { AreUnused (W.seen world.old).home }
    requires no_door { (W.seen world.old).world.door_at ≡ None }
    ensures run { IfOk result (λ end. IsServedRun config.now (W.seen world.old) (W.seen world.new) end.targets.items end.served) }
    ensures memory { OnErr result (IsUnserved config.now (W.seen world.old) (W.seen world.new)) }
{
    let door = open_door(config, world)?;
    let beside = run_beside(rt, alloc, config, door, world);
    let Beside { end, door } = beside;
    close_door(world, door);
    end
}
