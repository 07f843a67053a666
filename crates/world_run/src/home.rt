//! The wires of tracks come home.
ghost use Rattle.std.specs.Prelude.{◌≡◌, ◌≤◌, length};
ghost use Rattle.world_run.specs.Unused.{most_pairs};
ghost use Rattle.world_run.specs.Ends.{KeepsRest};
ghost use Rattle.world_run.specs.Taken.{EachTrack, IsInPlace, IsPairOf, IsAway};

use bridge_ports::World;
use scraper_pool::Track;

/// Brings the wires of tracks, which are those of the targets from number 1 on, home to their places.
pub(crate) fn bring_home<W: World>(world: &mut W, tracks: Vec<Track<W::Wire>>)
    requires few { length tracks.items ≤ most_pairs }
    requires places { EachTrack IsInPlace tracks.items }
    requires away { EachTrack (IsAway (W.seen world.old)) tracks.items }
    ensures home { EachTrack (IsPairOf (W.seen world.new).home) tracks.items }
    ensures rest { KeepsRest (length tracks.items) (W.seen world.old) (W.seen world.new) }
    ensures given { (W.seen world.new).given ≡ (W.seen world.old).given }
{
    let mut left = tracks;
    for _ in 0..left.len() {
        let track = left.take_last();
        let number = left.len() as u32 + 1;
        let (scrape, post) = track.into_wires();
        world.back(number, scrape, post);
    }
    left.destroy_empty();
}
