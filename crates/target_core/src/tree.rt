//! The request tree of one event.
ghost use Rattle.std.specs.Prelude.{◌≡◌, ◌++◌, ◌∷◌, [], IfOk, OnOk};
ghost use Rattle.family_metrics.specs.Scopes.{target_scope};
ghost use Rattle.scope_metrics.specs.PageScopes as by_scope;
ghost use Rattle.target_core.specs.Trees as trees;
ghost use Rattle.target_core.specs.Trees.{IsOwnPart, IsRequest, gone_part};

use crate::resource::resource;
use bridge_ports::Target;
use family_metrics::Marker;
use label_sets::{LabelSet, List, Memory, Text};
use otlp_tree::{Metric, NumberPoint, Request, ResourceMetrics, ScopeMetrics, Shape};
use page_model::Page;
use scope_metrics::{push_scope, series_scopes};
use start_times::Placed;
use std::alloc::Global;
use target_pages::Seen;

/// A gauge with one point and no labels.
#[tactic(auto, unfolding(crate::specs::Trees::target_gauge))]
fn target_gauge(alloc: Global, name: &str, time: u64, number: u64) -> Result<Metric, Memory>
    ensures { IfOk result (λ metric. metric ≡ trees.target_gauge name.now time number) }
{
    let mut points = Vec::with_capacity(alloc, 1)?;
    points.push(NumberPoint {
        labels: LabelSet::empty(alloc),
        start: None,
        time,
        value: Some(exact_decimal::of(number)),
        exemplars: List::new(alloc),
    })?;
    let points = List::from_vec(points)?;
    let name = Text::from_str(alloc, name)?;
    Ok(Metric {
        name,
        description: Text::empty(),
        unit: Text::empty(),
        shape: Shape::Gauge(points),
    })
}

/// Puts a gauge with one point and no labels behind other metrics.
fn push_gauge(
    alloc: Global,
    metrics: &mut Vec<Metric>,
    name: &str,
    time: u64,
    number: u64,
) -> Result<(), Memory>
    ensures { OnOk result (metrics.new.items ≡ metrics.old.items ++ trees.target_gauge name.now time number ∷ []) }
{
    metrics.push(target_gauge(alloc, name, time, number)?)?;
    Ok(())
}

/// What the event says of its scrape.
#[tactic(auto, unfolding(crate::specs::Trees::target_metrics))]
fn target_metrics(alloc: Global, moment: u64, up: u64, samples: u64) -> Result<Vec<Metric>, Memory>
    ensures { IfOk result (λ metrics. metrics.items ≡ trees.target_metrics moment up samples) }
{
    let mut metrics = Vec::with_capacity(alloc, 2)?;
    push_gauge(alloc, &mut metrics, "up", moment, up)?;
    push_gauge(
        alloc,
        &mut metrics,
        "scrape_samples_scraped",
        moment,
        samples,
    )?;
    Ok(metrics)
}

/// Puts the scope of what an event says of its scrape behind the others.
fn push_target(
    alloc: Global,
    scopes: &mut Vec<ScopeMetrics>,
    moment: u64,
    up: u64,
    samples: u64,
) -> Result<(), Memory>
    ensures { OnOk result (scopes.new.items ≡ scopes.old.items ++ by_scope.scope_with target_scope (trees.target_metrics moment up samples)) }
{
    let metrics = target_metrics(alloc, moment, up, samples)?;
    let name = Text::from_str(alloc, "bridge.target")?;
    push_scope(scopes, name, Text::empty(), metrics)
}

/// The part of series that are gone, under attributes of their target.
fn marked_part(
    alloc: Global,
    target: &Target,
    attributes: &LabelSet,
    markers: Vec<Marker>,
) -> Result<ResourceMetrics, Memory>
    ensures { IfOk result (λ part. part ≡ trees.marked_part target.now attributes.now markers.items) }
{
    let scopes = series_scopes(alloc, &[], &[], markers)?;
    let scopes = List::from_vec(scopes)?;
    let resource = resource(alloc, target, attributes)?;
    Ok(ResourceMetrics { resource, scopes })
}

/// The part of the series that went with the attributes that a target had before, which is left out where none did.
fn gone_part(
    alloc: Global,
    target: &Target,
    attributes: &LabelSet,
    markers: Vec<Marker>,
) -> Result<Vec<ResourceMetrics>, Memory>
    ensures { IfOk result (λ parts. parts.items ≡ trees.gone_part target.now attributes.now markers.items) }
{
    if markers.is_empty() {
        drop(markers);
        return Ok(Vec::new(alloc));
    }
    let mut parts = Vec::with_capacity(alloc, 1)?;
    parts.push(marked_part(alloc, target, attributes, markers)?)?;
    Ok(parts)
}

/// What a scrape of a target gives: the scopes of its series and of its markers, and the one of what is said of it.
fn own_part(
    alloc: Global,
    target: &Target,
    attributes: &LabelSet,
    moment: u64,
    up: u64,
    page: &Page,
    places: &[Option<Placed>],
    markers: Vec<Marker>,
) -> Result<ResourceMetrics, Memory>
    ensures { IfOk result (IsOwnPart target.now attributes.now places.now markers.items moment up page.now) }
{
    let resource = resource(alloc, target, attributes)?;
    let families = page.families().as_slice();
    let mut scopes = series_scopes(alloc, families, places, markers)?;
    push_target(alloc, &mut scopes, moment, up, u64::from(page.samples()))?;
    let scopes = List::from_vec(scopes)?;
    Ok(ResourceMetrics { resource, scopes })
}

/// The tree of a scrape of a target at a moment in nanoseconds since the Unix epoch (OTLP 1.x,
/// `ExportMetricsServiceRequest`), with the attributes that its pages give it, the places of the page's readings in
/// page order, and the markers of the series that are gone; behind it stand the further parts. The names, labels and
/// HELP texts of the page are shared with it. Want of memory is the only error.
#[tactic(auto, unfolding(crate::specs::Trees::request_of))]
fn request(
    alloc: Global,
    target: &Target,
    attributes: &LabelSet,
    moment: u64,
    up: u64,
    page: &Page,
    places: &[Option<Placed>],
    markers: Vec<Marker>,
    further: Vec<ResourceMetrics>,
) -> Result<Request, Memory>
    ensures { IfOk result (IsRequest target.now attributes.now places.now markers.items moment up page.now further.items) }
{
    let own = own_part(alloc, target, attributes, moment, up, page, places, markers)?;
    let mut parts = further;
    parts.insert(0, own)?;
    let parts = List::from_vec(parts)?;
    Ok(Request { parts })
}

/// The tree of an event under these attributes, without further parts.
pub(crate) fn request_alone(
    alloc: Global,
    target: &Target,
    attributes: &LabelSet,
    moment: u64,
    seen: &Seen,
    places: &[Option<Placed>],
    markers: Vec<Marker>,
) -> Result<Request, Memory>
    ensures { IfOk result (IsRequest target.now attributes.now places.now markers.items moment seen.now.up seen.now.series []) }
{
    let further = Vec::new(alloc);
    let (up, series) = (seen.up, &seen.series);
    request(
        alloc, target, attributes, moment, up, series, places, markers, further,
    )
}

/// The tree of an event that changes the attributes of its target: no series of its page has a past, and behind it stands
/// the part of the series that are gone under the attributes before.
pub(crate) fn request_anew(
    alloc: Global,
    target: &Target,
    before: &LabelSet,
    moment: u64,
    seen: &Seen,
    places: &[Option<Placed>],
    gone: Vec<Marker>,
) -> Result<Request, Memory>
    ensures { IfOk result (IsRequest target.now seen.now.resource places.now [] moment seen.now.up seen.now.series (gone_part target.now before.now gone.items)) }
{
    let further = gone_part(alloc, target, before, gone)?;
    let unmarked = Vec::new(alloc);
    let (up, series) = (seen.up, &seen.series);
    request(
        alloc,
        target,
        &seen.resource,
        moment,
        up,
        series,
        places,
        unmarked,
        further,
    )
}
