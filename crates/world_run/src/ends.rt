//! How the targets of tracks ended.
ghost use Rattle.std.specs.Prelude.{◌≡◌, map};
ghost use Rattle.run_report.specs.Ends.{track_end};
ghost use Rattle.world_run.specs.Taken as spec;

use bridge_ports::Wire;
use run_report::TargetEnd;
use scraper_pool::Track;

/// Takes over what was counted and whether memory was wanted. It takes no memory.
fn renew_end<W: Wire>(end: &mut TargetEnd, track: &Track<W>)
    requires { spec.end_names end.old ≡ spec.track_names track.now }
    ensures { end.new ≡ track_end track.now }
{
    end.counts = *track.counts();
    end.halted = track.halted();
}

/// Takes over of each track what its visits came to. It takes no memory.
pub(crate) fn renew_ends<W: Wire>(ends: &mut [TargetEnd], tracks: &[Track<W>])
    requires { map spec.end_names ends.old ≡ map spec.track_names tracks.now }
    ensures { ends.new ≡ map track_end tracks.now }
{
    let mut at = 0;
    while at < tracks.len() {
        renew_end(&mut ends[at], &tracks[at]);
        at += 1;
    }
}
