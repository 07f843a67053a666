//! The scopes of the families of a page and of markers.
ghost use Rattle.std.specs.Prelude.{◌≡◌, ◌++◌, Option, false, All, IfOk, OnOk};
ghost use Rattle.std.specs.List.{AllByRecursion};
ghost use Rattle.page_model.specs.declared.page.Reading.{Reading as AnyReading};
ghost use Rattle.page_model.specs.declared.page.Family.{Family as AnyFamily};
ghost use Rattle.start_times.specs.declared.row.Placed.{Placed as AnyPlaced};
ghost use Rattle.family_metrics.specs.Points.{MayAllBeLaidOut, MayAllBeScoped};
ghost use Rattle.scope_metrics.specs.PageScopes as spec;
ghost use Rattle.scope_metrics.specs.ScopeParts.{AreAlike, AreScopesOfParts, HasOwnPlaces, scope_of_part};

use crate::scope_parts::{ScopePart, ScopeParts};
use crate::scopes::all_name_none;
use family_metrics::{Marker, event_metrics};
use label_sets::{List, Memory, Text};
use otlp_tree::{Metric, ScopeMetrics};
use page_model::Family;
use start_times::Placed;
use std::alloc::Global;

/// Puts a scope behind the others, unless it has no metric.
///
/// # Errors
///
/// Want of memory.
pub fn push_scope(
    scopes: &mut Vec<ScopeMetrics>,
    name: Text,
    version: Text,
    metrics: Vec<Metric>,
) -> Result<(), Memory>
    ensures { OnOk result (scopes.new.items ≡ scopes.old.items ++ spec.scope_with (record { name = name; version = version }) metrics.items) }
{
    if metrics.is_empty() {
        return Ok(());
    }
    let metrics = List::from_vec(metrics)?;
    scopes.push(ScopeMetrics {
        name,
        version,
        metrics,
    })?;
    Ok(())
}

/// The bridge's own scope with what families and markers give that name no scope, unless it has no metric.
fn bridge_scope_alone(
    alloc: Global,
    families: &[Family],
    places: &[Option<Placed>],
    markers: Vec<Marker>,
) -> Result<Vec<ScopeMetrics>, Memory>
    requires layout { All (λ (f : AnyFamily). MayAllBeLaidOut f.readings) families.now }
    requires scope { All (λ (f : AnyFamily). MayAllBeScoped false f.readings) families.now }
    ensures { IfOk result (λ scopes. spec.IsBridgeScopeAlone families.now places.now markers.items scopes.items) }
{
    let metrics = event_metrics(alloc, false, families, places, markers)?;
    let name = Text::from_str(alloc, "bridge")?;
    let mut scopes = Vec::with_capacity(alloc, 2)?;
    push_scope(&mut scopes, name, Text::empty(), metrics)?;
    Ok(scopes)
}

/// Puts the scope of a part behind the others, unless it has no metric.
#[tactic(auto, unfolding(crate::specs::ScopeParts::closed_part, crate::specs::ScopeParts::scope_of_part))]
fn push_part(alloc: Global, scopes: &mut Vec<ScopeMetrics>, part: ScopePart) -> Result<(), Memory>
    ensures { (place : AnyReading → Option AnyPlaced) → HasOwnPlaces place part → OnOk result (scopes.new.items ≡ scopes.old.items ++ scope_of_part place part) }
{
    let mut part = part;
    if let Err(fault) = part.close() {
        drop(part);
        return Err(fault);
    }
    let ScopePart {
        name,
        version,
        families,
        last,
        places,
        markers,
    } = part;
    drop(last);
    let metrics = event_metrics(alloc, true, families.as_slice(), places.as_slice(), markers);
    drop(families);
    drop(places);
    push_scope(scopes, name, version, metrics?)
}

/// The scopes of parts, without those that have no metric.
fn scopes_of_parts(alloc: Global, parts: Vec<ScopePart>) -> Result<Vec<ScopeMetrics>, Memory>
    ensures { IfOk result (λ scopes. AreScopesOfParts parts.items scopes.items) }
{
    let mut scopes = Vec::with_capacity(alloc, parts.len())?;
    for part in parts {
        push_part(alloc, &mut scopes, part)?;
    }
    Ok(scopes)
}

/// The scopes of what families and markers give, each with its own series.
fn parted_scopes(
    alloc: Global,
    families: &[Family],
    places: &[Option<Placed>],
    markers: Vec<Marker>,
) -> Result<Vec<ScopeMetrics>, Memory>
    requires layout { All (λ (f : AnyFamily). MayAllBeLaidOut f.readings) families.now }
    requires alike { AllByRecursion AreAlike families.now }
    ensures { IfOk result (λ scopes. spec.AreSeriesScopes families.now places.now markers.items scopes.items) }
{
    let parts = ScopeParts::of(alloc, families, places, markers)?;
    scopes_of_parts(alloc, parts.into_parts())
}

/// The scopes of what families and markers give. Where all series are of the bridge's own, no reading is copied. Names,
/// labels and HELP texts are shared. As on every right page, buckets are cumulative, and the readings of a family have
/// one name and one unit.
///
/// # Errors
///
/// Want of memory.
pub fn series_scopes(
    alloc: Global,
    families: &[Family],
    places: &[Option<Placed>],
    markers: Vec<Marker>,
) -> Result<Vec<ScopeMetrics>, Memory>
    requires layout { All (λ (f : AnyFamily). MayAllBeLaidOut f.readings) families.now }
    requires alike { AllByRecursion AreAlike families.now }
    ensures { IfOk result (λ scopes. spec.AreSeriesScopes families.now places.now markers.items scopes.items) }
{
    if all_name_none(families, markers.as_slice()) {
        bridge_scope_alone(alloc, families, places, markers)
    } else {
        parted_scopes(alloc, families, places, markers)
    }
}
