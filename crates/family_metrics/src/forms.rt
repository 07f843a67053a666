//! The points of readings and of markers, in the forms of their kinds.
ghost use Rattle.std.specs.Prelude.{◌≡◌, Option, map, IfOk};
ghost use Rattle.family_metrics.specs.Points as spec;
ghost use Rattle.family_metrics.specs.Points.{MayBeLaidOut, MayBeScoped};
ghost use Rattle.family_metrics.specs.Scopes as scopes;
ghost use Rattle.family_metrics.specs.Markers as markers;
ghost use Rattle.family_metrics.specs.Shots.{shot_of};

use crate::markers::Marker;
use crate::scopes::point_labels;
use crate::shots::shots;
use exact_decimal::Number;
use histogram_layout::layout;
use label_sets::{Kind, LabelSet, List, Memory};
use otlp_tree::{HistogramPoint, HistogramValue, NumberPoint, Shot, SummaryPoint, SummaryValue};
use page_model::{Reading, Value};
use start_times::has_start;
use std::alloc::Global;

/// A form of points, in which a reading has one where its value is of that kind, and each marker has one.
pub(crate) trait PointForm: Sized {
    ghost use Rattle.family_metrics.specs.Points.{Point, point_at, MayBeLaidOut, MayBeScoped};
    ghost use Rattle.family_metrics.specs.declared.markers.Marker.{Marker as Gone};

    ghost form_of: { Point → Option Self };

    ghost marked_by: { Gone → Self };

    /// The point of a reading that is taken at a time, in this form, where it has one. Its labels and lists are shared,
    /// but for labels that name a scope and exemplars; `scoped` says whether labels may name one.
    fn from_reading(
        alloc: Global,
        scoped: bool,
        time: u64,
        start: u64,
        reading: &Reading,
    ) -> Result<Option<Self>, Memory>
        requires layout { MayBeLaidOut reading.now.value }
        requires scope { MayBeScoped scoped reading.now.key.labels }
        ensures { IfOk result (λ form. form ≡ form_of (point_at time start reading.now)) };

    /// The point of a marker in this form: it has no value and no exemplars. Its labels are shared, but for those that
    /// name a scope.
    fn from_marker(alloc: Global, marker: &Marker) -> Result<Self, Memory>
        ensures { IfOk result (λ form. form ≡ marked_by marker.now) };
}

/// The start of a series, where its kind has starts.
fn start_for(kind: Kind, start: u64) -> Option<u64>
    ensures { result ≡ spec.start_for kind start }
{
    if has_start(kind) { Some(start) } else { None }
}

/// The labels of the points of a series, where `scoped` says whether its labels may name a scope.
fn reading_labels(alloc: Global, scoped: bool, labels: &LabelSet) -> Result<LabelSet, Memory>
    requires scope { MayBeScoped scoped labels.now }
    ensures { IfOk result (λ left. left ≡ scopes.point_labels labels.now) }
{
    if scoped {
        point_labels(alloc, labels)
    } else {
        labels.copy()
    }
}

/// The labels and the exemplars of the point of a reading that is taken at a time.
fn labels_and_shots(
    alloc: Global,
    scoped: bool,
    time: u64,
    reading: &Reading,
) -> Result<(LabelSet, List<Shot>), Memory>
    requires scope { MayBeScoped scoped reading.now.key.labels }
    ensures labels { IfOk result (λ both. both.0 ≡ scopes.point_labels reading.now.key.labels) }
    ensures shots { IfOk result (λ both. both.1 ≡ map (shot_of time) reading.now.exemplars) }
{
    let labels = reading_labels(alloc, scoped, &reading.key.labels)?;
    let exemplars = shots(alloc, time, reading.exemplars.as_slice())?;
    Ok((labels, exemplars))
}

/// The number of a value that is one.
#[tactic(auto, unfolding(crate::specs::Points::plain_number))]
fn plain_number(value: &Value) -> Option<Number>
    ensures { result ≡ spec.plain_number value.now }
{
    match value {
        Value::Plain(number) => Some(*number),
        _ => None,
    }
}

impl PointForm for NumberPoint {
    ghost form_of = { spec.number_point };

    ghost marked_by = { markers.number_marker };

    #[tactic(auto, unfolding(crate::specs::Points::number_point, crate::specs::Points::point_at))]
    fn from_reading(
        alloc: Global,
        scoped: bool,
        time: u64,
        start: u64,
        reading: &Reading,
    ) -> Result<Option<Self>, Memory> {
        let Some(number) = plain_number(&reading.value) else {
            return Ok(None);
        };
        let (labels, exemplars) = labels_and_shots(alloc, scoped, time, reading)?;
        Ok(Some(NumberPoint {
            labels,
            start: start_for(reading.key.kind, start),
            time,
            value: Some(number),
            exemplars,
        }))
    }

    #[tactic(auto, unfolding(crate::specs::Markers::number_marker))]
    fn from_marker(alloc: Global, marker: &Marker) -> Result<Self, Memory> {
        Ok(NumberPoint {
            labels: point_labels(alloc, &marker.key.labels)?,
            start: marker.start,
            time: marker.time,
            value: None,
            exemplars: List::new(alloc),
        })
    }
}

/// The histogram of a value that has buckets.
#[tactic(auto, unfolding(crate::specs::Points::histogram_in, start_times::specs::Starts::cumulative_layout))]
fn histogram_in(alloc: Global, value: &Value) -> Result<Option<HistogramValue>, Memory>
    requires layout { MayBeLaidOut value.now }
    ensures { IfOk result (λ histogram. histogram ≡ spec.histogram_in value.now) }
{
    let Value::Buckets { buckets, sum } = value else {
        return Ok(None);
    };
    let layout = layout(alloc, buckets.as_slice())?;
    Ok(Some(HistogramValue { layout, sum: *sum }))
}

impl PointForm for HistogramPoint {
    ghost form_of = { spec.histogram_point };

    ghost marked_by = { markers.histogram_marker };

    #[tactic(auto, unfolding(crate::specs::Points::histogram_point, crate::specs::Points::point_at))]
    fn from_reading(
        alloc: Global,
        scoped: bool,
        time: u64,
        start: u64,
        reading: &Reading,
    ) -> Result<Option<Self>, Memory> {
        let Some(histogram) = histogram_in(alloc, &reading.value)? else {
            return Ok(None);
        };
        match labels_and_shots(alloc, scoped, time, reading) {
            Ok((labels, exemplars)) => Ok(Some(HistogramPoint {
                labels,
                start: start_for(reading.key.kind, start).unwrap_or(time),
                time,
                value: Some(histogram),
                exemplars,
            })),
            Err(fault) => {
                drop(histogram);
                Err(fault)
            }
        }
    }

    #[tactic(auto, unfolding(crate::specs::Markers::histogram_marker))]
    fn from_marker(alloc: Global, marker: &Marker) -> Result<Self, Memory> {
        Ok(HistogramPoint {
            labels: point_labels(alloc, &marker.key.labels)?,
            start: marker.start.unwrap_or(marker.time),
            time: marker.time,
            value: None,
            exemplars: List::new(alloc),
        })
    }
}

/// The summary of a value that is one.
#[tactic(auto, unfolding(crate::specs::Points::summary_in))]
fn summary_in(value: &Value) -> Result<Option<SummaryValue>, Memory>
    ensures { IfOk result (λ summary. summary ≡ spec.summary_in value.now) }
{
    let Value::Quantiles { list, count, sum } = value else {
        return Ok(None);
    };
    let quantiles = list.copy()?;
    Ok(Some(SummaryValue {
        count: count.unwrap_or(0),
        sum: sum.unwrap_or(exact_decimal::of(0)),
        quantiles,
    }))
}

impl PointForm for SummaryPoint {
    ghost form_of = { spec.summary_point };

    ghost marked_by = { markers.summary_marker };

    #[tactic(auto, unfolding(crate::specs::Points::summary_point, crate::specs::Points::point_at))]
    fn from_reading(
        alloc: Global,
        scoped: bool,
        time: u64,
        start: u64,
        reading: &Reading,
    ) -> Result<Option<Self>, Memory> {
        let Some(summary) = summary_in(&reading.value)? else {
            return Ok(None);
        };
        Ok(Some(SummaryPoint {
            labels: reading_labels(alloc, scoped, &reading.key.labels)?,
            start: start_for(reading.key.kind, start).unwrap_or(time),
            time,
            value: Some(summary),
        }))
    }

    #[tactic(auto, unfolding(crate::specs::Markers::summary_marker))]
    fn from_marker(alloc: Global, marker: &Marker) -> Result<Self, Memory> {
        Ok(SummaryPoint {
            labels: point_labels(alloc, &marker.key.labels)?,
            start: marker.start.unwrap_or(marker.time),
            time: marker.time,
            value: None,
        })
    }
}
