//! The metrics of families with the places of their readings and with markers.
ghost use Rattle.std.specs.Prelude.{◌≡◌, [], List, take, drop, All, IfOk};
ghost use Rattle.page_model.specs.declared.page.Family.{Family as AnyFamily};
ghost use Rattle.family_metrics.specs.Points.{MayAllBeLaidOut, MayAllBeScoped};
ghost use Rattle.family_metrics.specs.declared.markers.Marker.{Marker as AnyMarker};
ghost use Rattle.family_metrics.specs.MarkerGroups.{marker_groups};
ghost use Rattle.family_metrics.specs.PlacedMarkers.{AreEventMetrics, PlacesMetric, PlacesMetrics};

use crate::markers::{Marker, MarkerGroups};
use crate::metrics::{family_metric, push_alone};
use label_sets::Memory;
use otlp_tree::Metric;
use page_model::Family;
use start_times::Placed;
use std::alloc::Global;

/// The metric of a family with its places and the markers of its series, where it has one; the markers
/// know then that they have a place.
fn placed_metric(
    alloc: Global,
    scoped: bool,
    family: &Family,
    places: &[Option<Placed>],
    groups: &mut MarkerGroups,
) -> Result<Option<Metric>, Memory>
    requires layout { MayAllBeLaidOut family.now.readings }
    requires scope { MayAllBeScoped scoped family.now.readings }
    ensures { IfOk result (λ metric. PlacesMetric family.now places.now groups.old metric groups.new) }
{
    let Some(first) = family.readings.as_slice().first() else {
        return Ok(None);
    };
    let place = groups.place_of(
        first.key.name.as_bytes(),
        family.kind,
        first.key.unit.as_bytes(),
    )?;
    let metric = family_metric(alloc, scoped, family, places, groups.markers_at(place))?;
    groups.set_placed(place, metric.is_some());
    Ok(metric)
}

/// The places of the next readings, and those behind them.
pub fn next_places(
    places: &[Option<Placed>],
    count: usize,
) -> (&[Option<Placed>], &[Option<Placed>])
    ensures own { result.0.now ≡ take count places.now }
    ensures rest { result.1.now ≡ drop count places.now }
{
    places.split_at(count.min(places.len()))
}

/// The metrics of families with the places of all their readings, in order.
fn page_metrics(
    alloc: Global,
    scoped: bool,
    families: &[Family],
    places: &[Option<Placed>],
    groups: &mut MarkerGroups,
) -> Result<Vec<Metric>, Memory>
    requires layout { All (λ (f : AnyFamily). MayAllBeLaidOut f.readings) families.now }
    requires scope { All (λ (f : AnyFamily). MayAllBeScoped scoped f.readings) families.now }
    ensures { IfOk result (λ metrics. PlacesMetrics families.now places.now groups.old metrics.items groups.new) }
{
    let mut metrics = Vec::with_capacity(alloc, families.len())?;
    let mut left = places;
    for family in families {
        let (own, rest) = next_places(left, family.readings.len());
        if let Some(metric) = placed_metric(alloc, scoped, family, own, groups)? {
            metrics.push(metric)?;
        }
        left = rest;
    }
    Ok(metrics)
}

/// The metrics of families with the places of their readings, with markers that are grouped, and of those alone.
fn grouped_metrics(
    alloc: Global,
    scoped: bool,
    families: &[Family],
    places: &[Option<Placed>],
    groups: &mut MarkerGroups,
) -> Result<Vec<Metric>, Memory>
    requires layout { All (λ (f : AnyFamily). MayAllBeLaidOut f.readings) families.now }
    requires scope { All (λ (f : AnyFamily). MayAllBeScoped scoped f.readings) families.now }
    ensures { (ms : List AnyMarker) → groups.old ≡ marker_groups [] ms → IfOk result (λ metrics. AreEventMetrics families.now places.now ms metrics.items) }
{
    let mut metrics = page_metrics(alloc, scoped, families, places, groups)?;
    push_alone(alloc, groups.as_slice(), &mut metrics)?;
    Ok(metrics)
}

/// The metrics of families with the places of their readings, with markers, and of markers alone. `scoped` says whether
/// labels of readings may name a scope. Names, labels and HELP texts are shared. Buckets are cumulative.
///
/// # Errors
///
/// Want of memory.
pub fn event_metrics(
    alloc: Global,
    scoped: bool,
    families: &[Family],
    places: &[Option<Placed>],
    markers: Vec<Marker>,
) -> Result<Vec<Metric>, Memory>
    requires layout { All (λ (f : AnyFamily). MayAllBeLaidOut f.readings) families.now }
    requires scope { All (λ (f : AnyFamily). MayAllBeScoped scoped f.readings) families.now }
    ensures { IfOk result (λ metrics. AreEventMetrics families.now places.now markers.items metrics.items) }
{
    let mut groups = MarkerGroups::of(alloc, markers)?;
    let metrics = grouped_metrics(alloc, scoped, families, places, &mut groups);
    drop(groups);
    metrics
}
