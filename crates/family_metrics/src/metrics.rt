//! The metrics of families, with the markers of their series, and of markers alone.
ghost use Rattle.std.specs.Prelude.{◌≡◌, ◌++◌, map, filter_map, option_map, option_and_then, IfOk, OnOk};
ghost use Rattle.family_metrics.specs.Points as spec;
ghost use Rattle.family_metrics.specs.Points.{MayBeLaidOut, MayAllBeLaidOut, MayBeScoped, MayAllBeScoped};
ghost use Rattle.family_metrics.specs.Markers as marks;
ghost use Rattle.family_metrics.specs.MarkerGroups as grouped;
ghost use Rattle.family_metrics.specs.Metrics as by_family;
ghost use Rattle.family_metrics.specs.PlacedMarkers.{IsFamilyMetric};

use crate::forms::PointForm;
use crate::markers::{Marker, MarkerGroup};
use label_sets::{Kind, List, Memory, SeriesKey, Text};
use otlp_tree::{Metric, Shape};
use page_model::{Family, Reading};
use start_times::Placed;
use std::alloc::Global;

/// The point of a reading at its place in this form, where it has one.
fn placed_point<F: PointForm + Drop>(
    alloc: Global,
    scoped: bool,
    place: Option<Placed>,
    reading: &Reading,
) -> Result<Option<F>, Memory>
    requires layout { MayBeLaidOut reading.now.value }
    requires scope { MayBeScoped scoped reading.now.key.labels }
    ensures { IfOk result (λ point. point ≡ option_and_then F.form_of (spec.point_in place reading.now)) }
{
    let Some(place) = place else {
        return Ok(None);
    };
    match place {
        Placed::Late => Ok(None),
        Placed::At { time, start } => F::from_reading(alloc, scoped, time, start, reading),
    }
}

/// The points of readings with these places, where they have this form.
fn all_points<F: PointForm + Drop>(
    alloc: Global,
    scoped: bool,
    readings: &[Reading],
    places: &[Option<Placed>],
) -> Result<Vec<F>, Memory>
    requires layout { MayAllBeLaidOut readings.now }
    requires scope { MayAllBeScoped scoped readings.now }
    ensures { IfOk result (λ points. points.items ≡ filter_map F.form_of (spec.points_with readings.now places.now)) }
{
    let mut points = Vec::with_capacity(alloc, readings.len())?;
    for (reading, place) in readings.iter().zip(places) {
        if let Some(point) = placed_point(alloc, scoped, *place, reading)? {
            points.push(point)?;
        }
    }
    Ok(points)
}

/// Puts the points of markers behind others.
fn push_markers<F: PointForm + Drop>(
    alloc: Global,
    points: &mut Vec<F>,
    markers: &[Marker],
) -> Result<(), Memory>
    ensures { OnOk result (points.new.items ≡ points.old.items ++ map F.marked_by markers.now) }
{
    for marker in markers {
        let point = F::from_marker(alloc, marker)?;
        points.push(point)?;
    }
    Ok(())
}

/// The points of readings with these places, and behind them those of markers, where a reading has one.
fn points<F: PointForm + Drop>(
    alloc: Global,
    scoped: bool,
    readings: &[Reading],
    places: &[Option<Placed>],
    markers: &[Marker],
) -> Result<Option<List<F>>, Memory>
    requires layout { MayAllBeLaidOut readings.now }
    requires scope { MayAllBeScoped scoped readings.now }
    ensures { IfOk result (λ points. points ≡ by_family.some_marked F.form_of F.marked_by (spec.points_with readings.now places.now) markers.now) }
{
    let mut points = all_points(alloc, scoped, readings, places)?;
    if points.is_empty() {
        return Ok(None);
    }
    push_markers(alloc, &mut points, markers)?;
    let points = List::from_vec(points)?;
    Ok(Some(points))
}

/// The shape of the points of readings of a kind, and of markers behind them, where there is one.
#[tactic(auto, unfolding(crate::specs::Metrics::shape_of))]
fn shape(
    alloc: Global,
    scoped: bool,
    kind: Kind,
    readings: &[Reading],
    places: &[Option<Placed>],
    markers: &[Marker],
) -> Result<Option<Shape>, Memory>
    requires layout { MayAllBeLaidOut readings.now }
    requires scope { MayAllBeScoped scoped readings.now }
    ensures { IfOk result (λ shape. shape ≡ option_map (marks.shape_with markers.now)
        (by_family.shape_of kind (spec.points_with readings.now places.now))) }
{
    Ok(match kind {
        Kind::Counter => {
            points(alloc, scoped, readings, places, markers)?.map(|points| Shape::Sum {
                points,
                monotonic: true,
            })
        }
        Kind::Info | Kind::StateSet => {
            points(alloc, scoped, readings, places, markers)?.map(|points| Shape::Sum {
                points,
                monotonic: false,
            })
        }
        Kind::Histogram => {
            points(alloc, scoped, readings, places, markers)?.map(Shape::Histogram)
        }
        Kind::Summary => points(alloc, scoped, readings, places, markers)?.map(Shape::Summary),
        Kind::Gauge | Kind::Unknown => {
            points(alloc, scoped, readings, places, markers)?.map(Shape::Gauge)
        }
        Kind::GaugeHistogram => None,
    })
}

/// The name of a series, a help text and the unit of the series; they are shared.
fn texts_of(key: &SeriesKey, help: &Text) -> Result<(Text, Text, Text), Memory>
    ensures name { IfOk result (λ texts. texts.0 ≡ key.now.name) }
    ensures help { IfOk result (λ texts. texts.1 ≡ help.now) }
    ensures unit { IfOk result (λ texts. texts.2 ≡ key.now.unit) }
{
    let name = key.name.copy()?.into_text();
    let description = help.copy()?;
    let unit = key.unit.copy()?;
    Ok((name, description, unit))
}

/// The metric of a shape that is named by a series, with a help text.
fn named(first: &SeriesKey, help: &Text, shape: Shape) -> Result<Metric, Memory>
    ensures { IfOk result (λ metric. metric ≡ record { name = first.now.name; description = help.now; unit = first.now.unit; shape = shape }) }
{
    match texts_of(first, help) {
        Ok((name, description, unit)) => Ok(Metric {
            name,
            description,
            unit,
            shape,
        }),
        Err(fault) => {
            drop(shape);
            Err(fault)
        }
    }
}

/// The metric of a family, where it has one, and these markers behind its points. It is named by the
/// first reading. Texts are shared.
#[tactic(auto, unfolding(crate::specs::Markers::metric_with))]
pub(crate) fn family_metric(
    alloc: Global,
    scoped: bool,
    family: &Family,
    places: &[Option<Placed>],
    markers: &[Marker],
) -> Result<Option<Metric>, Memory>
    requires layout { MayAllBeLaidOut family.now.readings }
    requires scope { MayAllBeScoped scoped family.now.readings }
    ensures { IfOk result (λ metric. IsFamilyMetric family.now places.now markers.now metric) }
{
    let readings = family.readings.as_slice();
    let Some(first) = readings.first() else {
        return Ok(None);
    };
    let Some(shape) = shape(alloc, scoped, family.kind, readings, places, markers)? else {
        return Ok(None);
    };
    let metric = named(&first.key, &family.help, shape)?;
    Ok(Some(metric))
}

/// The points of markers alone.
fn marker_points<F: PointForm + Drop>(alloc: Global, markers: &[Marker]) -> Result<List<F>, Memory>
    ensures { IfOk result (λ points. points ≡ map F.marked_by markers.now) }
{
    let mut points = Vec::with_capacity(alloc, markers.len())?;
    push_markers(alloc, &mut points, markers)?;
    let points = List::from_vec(points)?;
    Ok(points)
}

/// The shape of markers alone of series of a kind, where the kind has points.
#[tactic(auto, unfolding(crate::specs::Markers::no_points))]
fn marker_shape(alloc: Global, kind: Kind, markers: &[Marker]) -> Result<Option<Shape>, Memory>
    ensures { IfOk result (λ shape. shape ≡ option_map (marks.shape_with markers.now) (marks.no_points kind)) }
{
    Ok(match kind {
        Kind::Counter => Some(Shape::Sum {
            points: marker_points(alloc, markers)?,
            monotonic: true,
        }),
        Kind::Info | Kind::StateSet => Some(Shape::Sum {
            points: marker_points(alloc, markers)?,
            monotonic: false,
        }),
        Kind::Histogram => Some(Shape::Histogram(marker_points(alloc, markers)?)),
        Kind::Summary => Some(Shape::Summary(marker_points(alloc, markers)?)),
        Kind::Gauge | Kind::Unknown => Some(Shape::Gauge(marker_points(alloc, markers)?)),
        Kind::GaugeHistogram => None,
    })
}

/// The metric of markers that the page has no metric for, where there is one.
#[tactic(auto, unfolding(crate::specs::MarkerGroups::alone_metric))]
fn alone_metric(alloc: Global, group: &MarkerGroup) -> Result<Option<Metric>, Memory>
    ensures { IfOk result (λ metric. metric ≡ grouped.alone_metric group.now) }
{
    if group.is_placed() {
        return Ok(None);
    }
    let first = group.first();
    let Some(shape) = marker_shape(alloc, first.kind, group.markers())? else {
        return Ok(None);
    };
    let metric = named(first, &Text::empty(), shape)?;
    Ok(Some(metric))
}

/// Puts the metrics of markers alone behind those of a page.
pub(crate) fn push_alone(
    alloc: Global,
    groups: &[MarkerGroup],
    metrics: &mut Vec<Metric>,
) -> Result<(), Memory>
    ensures { OnOk result (metrics.new.items ≡ metrics.old.items ++ filter_map grouped.alone_metric groups.now) }
{
    for group in groups {
        if let Some(metric) = alone_metric(alloc, group)? {
            metrics.push(metric)?;
        }
    }
    Ok(())
}
