//! The tracks of a configuration's targets, over the wires of a world.
ghost use Rattle.std.specs.Prelude.{◌≡◌, ◌+◌, ◌<◌, ℕ, length, map, IfOk, OnErr};
ghost use Rattle.series_table.specs.Records.{Kept};
ghost use Rattle.bridge_config.specs.RightConfigs.{IsRightConfig};
ghost use Rattle.world_run.specs.Unused.{most_pairs, IsUnused, AreUnused};
ghost use Rattle.world_run.specs.Ends.{KeepsRest};
ghost use Rattle.world_run.specs.Taken.{EachTrack, IsFirstTrack, IsPairOf, IsOut, KeepsOtherPairs};

use crate::home::bring_home;
use bridge_config::Config;
use bridge_ports::{Target, World};
use label_sets::Memory;
use scraper_pool::Track;
use series_table::TrackFault;
use std::alloc::{AllocError, Global};

/// The track of a target at a place, counted from 0, over the pair of wires of its number. Without memory the pair is
/// at home again.
fn new_track<W: World>(
    alloc: Global,
    config: &Config,
    target: &Target,
    place: u32,
    world: &mut W,
) -> Result<Track<W::Wire>, Memory>
    requires right { IsRightConfig config.now }
    requires few { place < most_pairs }
    requires unused { IsUnused (W.seen world.old).home (place + 1) }
    ensures first { IfOk result (IsFirstTrack config.now place) }
    ensures target { IfOk result (λ track. track.followed.target ≡ target.now) }
    ensures was { IfOk result (IsPairOf (W.seen world.old).home place) }
    ensures out { IfOk result (IsOut (W.seen world.new) place) }
    ensures kept { OnErr result ((W.seen world.new).home (place + 1) ≡ (W.seen world.old).home (place + 1)) }
    ensures rest { KeepsOtherPairs (place + 1) (W.seen world.old) (W.seen world.new) }
{
    let number = place + 1;
    let scraped = target.copy()?;
    let to = config.collector.copy()?;
    let (_job, _instance) = (target.job(), target.instance());
    let (from, interval) = (target.address(), config.settings.interval);
    let (scrape, post) = match world.wires(alloc, number, from, &config.collector, interval) {
        Ok(pair) => pair,
        Err(AllocError) => return Err(AllocError),
    };
    match Track::new(alloc, scraped, to, config.settings, scrape, post) {
        Ok(track) => {
            track.facts();
            Ok(track)
        }
        Err(TrackFault::Memory(scrape, post)) => {
            world.back(number, scrape, post);
            Err(AllocError)
        }
    }
}

/// The tracks of a configuration's targets, in order, before their first visits. Without memory all pairs are at home
/// again.
#[tactic(auto, using(crate::proofs::Homes::none_taken))]
pub(crate) fn new_tracks<W: World>(
    alloc: Global,
    config: &Config,
    world: &mut W,
) -> Result<Vec<Track<W::Wire>>, Memory>
    requires right { IsRightConfig config.now }
    requires unused { AreUnused (W.seen world.old).home }
    ensures first { IfOk result (λ tracks. EachTrack (IsFirstTrack config.now) tracks.items) }
    ensures targets { IfOk result (λ tracks. map (λ (k : Kept). k.followed.target) tracks.items ≡ config.now.targets) }
    ensures was { IfOk result (λ tracks. EachTrack (IsPairOf (W.seen world.old).home) tracks.items) }
    ensures out { IfOk result (λ tracks. EachTrack (IsOut (W.seen world.new)) tracks.items) }
    ensures kept { OnErr result ((n : ℕ) → (W.seen world.new).home n ≡ (W.seen world.old).home n) }
    ensures rest { KeepsRest (length config.now.targets) (W.seen world.old) (W.seen world.new) }
{
    let targets = config.targets.as_slice();
    let mut tracks = Vec::with_capacity(alloc, targets.len())?;
    let mut at = 0usize;
    while at < targets.len() {
        match new_track(alloc, config, &targets[at], at as u32, world) {
            Ok(track) => {
                tracks.push_reserved(track);
                at += 1;
            }
            Err(AllocError) => {
                bring_home(world, tracks);
                return Err(AllocError);
            }
        }
    }
    Ok(tracks)
}
