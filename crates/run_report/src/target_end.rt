//! How the visits of a target ended.
ghost use Rattle.std.specs.Prelude.{◌≡◌, map, IfOk};
ghost use Rattle.run_report.specs.Ends as spec;

use bridge_ports::Wire;
use label_sets::{Memory, Text};
use series_table::{Counts, Track};
use std::alloc::{AllocError, Global};

/// How the visits of a target ended.
#[derive(Drop)]
pub struct TargetEnd {
    /// The name of the job (Prometheus, "Jobs and instances").
    pub job: Text,
    /// Host, colon and port.
    pub instance: Text,
    /// What was counted over its visits.
    pub counts: Counts,
    /// Whether memory was wanted, so that visits are missing.
    pub halted: bool,
}

impl TargetEnd {
    /// How the target of a track ended, as its visits stand.
    ///
    /// # Errors
    ///
    /// Want of memory.
    pub fn of<W: Wire>(track: &Track<W>) -> Result<TargetEnd, Memory>
        ensures { IfOk result (λ end. end ≡ spec.track_end track.now) }
    {
        track.facts();
        let shown = track.shown();
        Ok(TargetEnd {
            job: shown.job.copy()?,
            instance: shown.instance.copy()?,
            counts: *track.counts(),
            halted: track.halted(),
        })
    }
}

/// How the target of each track ended, as its visits stand.
///
/// # Errors
///
/// Want of memory.
pub fn ends_of<W: Wire>(alloc: Global, tracks: &[Track<W>]) -> Result<Vec<TargetEnd>, Memory>
    ensures { IfOk result (λ ends. ends.items ≡ map spec.track_end tracks.now) }
{
    let mut ends = Vec::new(alloc);
    for track in tracks {
        let end = TargetEnd::of(track)?;
        if ends.push(end).is_err() {
            return Err(AllocError);
        }
    }
    Ok(ends)
}

/// Whether some target was halted.
pub fn some_halted(ends: &[TargetEnd]) -> bool
    ensures { result ≡ spec.some_halted ends.now }
{
    ends.iter().any(|end| end.halted)
}
