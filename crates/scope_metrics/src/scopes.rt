//! The scopes that series name by their labels, as bytes and as texts, and whether any is named.
ghost use Rattle.std.specs.Prelude.{◌≡◌, ◌&&◌, IfOk};
ghost use Rattle.family_metrics.specs.Scopes as spec;
ghost use Rattle.scope_metrics.specs.Laws as laws;

use family_metrics::{Marker, scope_name};
use label_sets::{LabelSet, Memory, Text};
use page_model::{Family, Reading};
use std::alloc::Global;

/// The bytes of the version that labels give.
fn version_bytes(labels: &LabelSet) -> &[u8]
    ensures { result.now ≡ spec.scope_version labels.now }
{
    match labels.value(b"otel_scope_version") {
        Some(version) => version.as_bytes(),
        None => "".as_bytes(),
    }
}

/// The bytes of the name and of the version of the scope of a series with these labels.
pub(crate) fn scope_bytes(labels: &LabelSet) -> (&[u8], &[u8])
    ensures name { result.0.now ≡ (spec.scope_of labels.now).name }
    ensures version { result.1.now ≡ (spec.scope_of labels.now).version }
{
    match scope_name(labels) {
        Some(name) => (name.as_bytes(), version_bytes(labels)),
        None => ("bridge".as_bytes(), "".as_bytes()),
    }
}

/// The version that labels give, or nothing.
fn version_text(labels: &LabelSet) -> Result<Text, Memory>
    ensures { IfOk result (λ version. version ≡ spec.scope_version labels.now) }
{
    match labels.value(b"otel_scope_version") {
        Some(version) => version.copy(),
        None => Ok(Text::empty()),
    }
}

/// The name and the version of the scope of a series with these labels, which are shared.
pub(crate) fn scope_texts(alloc: Global, labels: &LabelSet) -> Result<(Text, Text), Memory>
    ensures name { IfOk result (λ both. both.0 ≡ (spec.scope_of labels.now).name) }
    ensures version { IfOk result (λ both. both.1 ≡ (spec.scope_of labels.now).version) }
{
    match scope_name(labels) {
        Some(name) => {
            let name = name.copy()?;
            let version = version_text(labels)?;
            Ok((name, version))
        }
        None => {
            let name = Text::from_str(alloc, "bridge")?;
            Ok((name, Text::empty()))
        }
    }
}

/// Whether labels name no scope.
fn name_none(labels: &LabelSet) -> bool
    ensures { result ≡ laws.names_none labels.now }
{
    scope_name(labels).is_none()
}

/// Whether readings name no scope.
fn readings_name_none(readings: &[Reading]) -> bool
    ensures { result ≡ laws.readings_name_none readings.now }
{
    for reading in readings {
        if !name_none(&reading.key.labels) {
            return false;
        }
    }
    true
}

/// Whether the readings of families name no scope.
fn families_name_none(families: &[Family]) -> bool
    ensures { result ≡ laws.families_name_none families.now }
{
    for family in families {
        if !readings_name_none(family.readings.as_slice()) {
            return false;
        }
    }
    true
}

/// Whether markers name no scope.
fn markers_name_none(markers: &[Marker]) -> bool
    ensures { result ≡ laws.markers_name_none markers.now }
{
    for marker in markers {
        if !name_none(&marker.key.labels) {
            return false;
        }
    }
    true
}

/// Whether neither the readings of families nor markers name a scope.
pub(crate) fn all_name_none(families: &[Family], markers: &[Marker]) -> bool
    ensures { result ≡ (laws.families_name_none families.now && laws.markers_name_none markers.now) }
{
    families_name_none(families) && markers_name_none(markers)
}
