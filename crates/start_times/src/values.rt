//! What a reading says of its kind, its time, the creation of its series and its value.
ghost use Rattle.std.specs.Prelude.{◌≡◌, unwrap_or, IfOk};
ghost use Rattle.start_times.specs.Starts as spec;

use crate::row::Last;
use histogram_layout::{Layout, is_cumulative, layout};
use label_sets::{Kind, List, Memory};
use page_model::{Bucket, Reading, Value};
use std::alloc::Global;

/// Whether series of a kind have points: all but gauge histograms.
#[tactic(auto, unfolding(crate::specs::Starts::has_points))]
pub fn has_points(kind: Kind) -> bool
    ensures { result ≡ spec.has_points kind }
{
    !matches!(kind, Kind::GaugeHistogram)
}

/// Whether the points of a kind have a start.
#[tactic(auto, unfolding(crate::specs::Starts::has_start))]
pub fn has_start(kind: Kind) -> bool
    ensures { result ≡ spec.has_start kind }
{
    match kind {
        Kind::Counter | Kind::Histogram | Kind::Summary | Kind::Info | Kind::StateSet => true,
        Kind::Gauge | Kind::GaugeHistogram | Kind::Unknown => false,
    }
}

/// The time of a reading: its own, where times of the page count and it has one, else the moment of the scrape.
pub fn time_of(honor: bool, moment: u64, reading: &Reading) -> u64
    ensures { result ≡ spec.time_where honor moment reading.now }
{
    if !honor {
        return moment;
    }
    reading.stamp.unwrap_or(moment)
}

/// The time, where it isn't after the limit.
#[tactic(auto, unfolding(crate::specs::Starts::up_to))]
fn up_to(limit: u64, time: u64) -> Option<u64>
    ensures { result ≡ spec.up_to limit time }
{
    if time <= limit { Some(time) } else { None }
}

/// When the page says that the series was created, where that isn't after the time of the reading.
pub fn created_at(time: u64, reading: &Reading) -> Option<u64>
    ensures { result ≡ spec.created_at time reading.now }
{
    let Some(created) = &reading.created else {
        return None;
    };
    let Some(created) = exact_decimal::nanos(created) else {
        return None;
    };
    up_to(time, created)
}

/// The layout of buckets, or the one without buckets where they are not cumulative.
#[tactic(auto, unfolding(crate::specs::Starts::cumulative_layout))]
fn layout_or_none(alloc: Global, buckets: &[Bucket]) -> Result<Layout, Memory>
    ensures { IfOk result (λ layout. layout ≡ unwrap_or (spec.cumulative_layout buckets.now) spec.no_layout) }
{
    if is_cumulative(buckets) {
        return layout(alloc, buckets);
    }
    Ok(Layout {
        bounds: List::new(alloc),
        counts: List::new(alloc),
        count: 0,
    })
}

/// What of a value shows a fall.
#[tactic(auto, unfolding(crate::specs::Starts::last_of))]
pub(crate) fn last_of(alloc: Global, value: &Value) -> Result<Last, Memory>
    ensures { IfOk result (λ last. last ≡ spec.last_of value.now) }
{
    Ok(match value {
        Value::Plain(number) => Last::Plain(*number),
        Value::Buckets { buckets, .. } => Last::Buckets(layout_or_none(alloc, buckets.as_slice())?),
        Value::Quantiles { count, .. } => Last::Count(count.unwrap_or(0)),
    })
}
