//! The labels that the samples of a group share (OpenMetrics 1.0, "Metric").
ghost use Rattle.std.specs.Prelude.{◌≡◌, Some, IfOk, OnErr, slice_get};
ghost use Rattle.std.specs.Option.{option_copied};
ghost use Rattle.label_sets.specs.Labels.{label_sets_eq, has_name};
ghost use Rattle.packed_keys.specs.Packing.{with_set};
ghost use Rattle.sample_groups.specs.Groups.{place_name, shared_labels};

use label_sets::{Kind, LabelSet, Memory};
use packed_keys::SeenSets;
use std::alloc::Global;

/// The name of the label that tells the samples of a group apart, where the kind has one.
pub(crate) fn place_name(kind: Kind) -> Option<&'static [u8]>
    ensures { option_copied result ≡ place_name kind }
{
    match kind {
        Kind::Counter => None,
        Kind::Summary => Some(b"quantile"),
        _ => Some(b"le"),
    }
}

/// The labels that a sample shares with its group.
pub(crate) fn shared_labels(
    alloc: Global,
    kind: Kind,
    labels: &LabelSet,
) -> Result<LabelSet, Memory>
    ensures { IfOk result (λ shared. shared ≡ shared_labels kind labels.now) }
{
    match place_name(kind) {
        Some(name) => labels.without(alloc, name),
        None => labels.copy(),
    }
}

/// Whether the labels that a sample shares with its group are these. It takes no memory.
pub(crate) fn are_shared(kind: Kind, labels: &LabelSet, others: &LabelSet) -> bool
    ensures { result ≡ label_sets_eq (shared_labels kind labels.now) others.now }
{
    match place_name(kind) {
        Some(name) => labels.is_without(name, others),
        None => labels == others,
    }
}

/// Whether a label has this name.
pub(crate) fn has_label(labels: &LabelSet, name: &[u8]) -> bool
    ensures { result ≡ has_name labels.now name.now }
{
    labels.value(name).is_some()
}

/// Adds the labels that a sample shares with its group, where they are new, and answers their place.
pub(crate) fn insert_shared(
    sets: &mut SeenSets,
    kind: Kind,
    labels: &LabelSet,
) -> Result<usize, Memory>
    ensures place { IfOk result (λ at. slice_get sets.new at ≡ Some (shared_labels kind labels.now)) }
    ensures sets { IfOk result (λ at. sets.new ≡ with_set sets.old (shared_labels kind labels.now)) }
    ensures err { OnErr result (sets.new ≡ sets.old) }
{
    match place_name(kind) {
        Some(name) => sets.insert_without(labels, name),
        None => sets.insert(labels),
    }
}
