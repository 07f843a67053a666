//! The scopes that series name by their labels, and the labels that are left to their points.
ghost use Rattle.std.specs.Prelude.{◌≡◌, IfOk};
ghost use Rattle.std.specs.Option.{option_copied};
ghost use Rattle.family_metrics.specs.Scopes as spec;

use label_sets::{LabelSet, Memory, Text};
use std::alloc::Global;

/// Whether a name is of one of the bridge's own scopes.
fn is_own_scope(name: &[u8]) -> bool
    ensures { result ≡ spec.is_own_scope name.now }
{
    name == b"bridge".as_slice() || name == b"bridge.target".as_slice()
}

/// The name of a scope that labels give, where they give one and it is not one of the bridge's own.
#[tactic(auto, unfolding(crate::specs::Scopes::scope_name))]
pub fn scope_name(labels: &LabelSet) -> Option<&Text>
    ensures { option_copied result ≡ spec.scope_name labels.now }
{
    let name = labels.value(b"otel_scope_name")?;
    if is_own_scope(name.as_bytes()) {
        None
    } else {
        Some(name)
    }
}

/// The labels of the points of a series: without those that name its scope. Else they are shared.
pub(crate) fn point_labels(alloc: Global, labels: &LabelSet) -> Result<LabelSet, Memory>
    ensures { IfOk result (λ left. left ≡ spec.point_labels labels.now) }
{
    if scope_name(labels).is_none() {
        return labels.copy();
    }
    let rest = labels.without(alloc, b"otel_scope_name")?;
    rest.without(alloc, b"otel_scope_version")
}
