//! The markers of series that are gone.
ghost use Rattle.std.specs.Prelude.{◌≡◌, ℕ, Option, None, map, min, option_map, get_or, IfOk};
ghost use Rattle.label_sets.specs.declared.series_key.SeriesKey.{SeriesKey as AnyKey};
ghost use Rattle.target_core.specs.Events.{marker_with};

use family_metrics::Marker;
use label_sets::{Memory, SeriesKey};
use std::alloc::Global;

/// The start at a place, where there is one.
fn start_at(starts: &[Option<u64>], place: usize) -> Option<u64>
    ensures { result ≡ get_or starts.now place None }
{
    match starts.get(place) {
        Some(start) => *start,
        None => None,
    }
}

/// The start at a place, where there is one, but none after a moment.
fn start_by(starts: &[Option<u64>], place: usize, moment: u64) -> Option<u64>
    ensures { result ≡ option_map (min moment) (get_or starts.now place None) }
{
    match start_at(starts, place) {
        Some(start) => Some(moment.min(start)),
        None => None,
    }
}

/// The markers of series that are gone, with their starts. No marker has a start after its time.
pub(crate) fn markers_of(
    alloc: Global,
    gone: &[SeriesKey],
    starts: &[Option<u64>],
    moment: u64,
) -> Result<Vec<Marker>, Memory>
    ensures { (start : AnyKey → Option ℕ) → starts.now ≡ map start gone.now
        → IfOk result (λ markers. markers.items ≡ map (marker_with start moment) gone.now) }
{
    let mut markers = Vec::with_capacity(alloc, gone.len())?;
    for (place, key) in gone.iter().enumerate() {
        let marker = Marker {
            key: key.copy()?,
            start: start_by(starts, place, moment),
            time: moment,
        };
        markers.push(marker)?;
    }
    Ok(markers)
}
