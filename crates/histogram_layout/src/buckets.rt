//! From cumulative buckets to a layout.

ghost use Rattle.std.specs.Prelude.{◌≡◌, true, option_map, IfOk};
ghost use Rattle.page_model.specs.Rules.{is_up};
ghost use Rattle.histogram_layout.specs.Layouts as spec;

use crate::intervals::Layout;
use exact_decimal::{Decimal, Number};
use label_sets::{List, Memory};
use page_model::Bucket;
use std::alloc::Global;

/// Whether the number is plus infinity.
fn is_up(number: &Number) -> bool
    ensures { result ≡ is_up number.now }
{
    matches!(number, Number::Up)
}

/// Whether the second bucket may follow the first.
#[tactic(auto, unfolding(crate::specs::Layouts::may_follow))]
fn may_follow(first: &Bucket, second: &Bucket) -> bool
    ensures { result ≡ spec.may_follow first.now second.now }
{
    matches!(first.le, Number::Finite(_))
        && exact_decimal::less(&first.le, &second.le)
        && first.count <= second.count
}

/// Whether buckets are cumulative: their bounds increase and are finite but for the last, which is
/// plus infinity, and no count is smaller than the one before (OpenMetrics 1.0, "Histogram").
#[tactic(auto, unfolding(crate::specs::Layouts::are_cumulative))]
pub fn is_cumulative(buckets: &[Bucket]) -> bool
    ensures { result ≡ spec.are_cumulative buckets.now }
{
    let Some((first, rest)) = buckets.split_first() else {
        return false;
    };
    let mut before = *first;
    for bucket in rest {
        if !may_follow(&before, bucket) {
            return false;
        }
        before = *bucket;
    }
    is_up(&before.le)
}

/// The number, where it is finite.
#[tactic(auto, unfolding(crate::specs::Layouts::finite_part))]
fn finite_part(number: &Number) -> Option<Decimal>
    ensures { result ≡ spec.finite_part number.now }
{
    match number {
        Number::Finite(decimal) => Some(*decimal),
        _ => None,
    }
}

/// The layout of cumulative buckets: the finite bounds, the differences of the counts of neighbours, and the last count
/// (OpenTelemetry metrics data model, "Histogram"; OpenMetrics 1.0, "Histogram").
///
/// # Errors
///
/// Want of memory.
///
/// # Example
///
/// ```rust
/// let buckets = [
///     Bucket { le: read(b"0.1")?, count: 2 },
///     Bucket { le: of(1), count: 5 },
///     Bucket { le: Number::Up, count: 5 },
/// ];
/// if is_cumulative(&buckets) {
///     let layout = layout(alloc, &buckets)?;
///     assert_eq!(rt; layout.counts.as_slice(), [2, 3, 0].as_slice());
///     assert_eq!(rt; (layout.bounds.len(), layout.count), (2, 5));
/// }
/// ```
#[tactic(auto, unfolding(crate::specs::Layouts::layout_of))]
pub fn layout(alloc: Global, buckets: &[Bucket]) -> Result<Layout, Memory>
    requires { spec.are_cumulative buckets.now ≡ true }
    ensures { IfOk result (λ layout. layout ≡ spec.layout_of buckets.now) }
{
    let mut bounds = Vec::with_capacity(alloc, buckets.len().saturating_sub(1))?;
    let mut counts = Vec::with_capacity(alloc, buckets.len())?;
    let mut before = 0;
    for bucket in buckets {
        if let Some(bound) = finite_part(&bucket.le) {
            bounds.push(bound)?;
        }
        counts.push(bucket.count - before)?;
        before = bucket.count;
    }
    let bounds = List::from_vec(bounds)?;
    let counts = List::from_vec(counts)?;
    Ok(Layout {
        bounds,
        counts,
        count: before,
    })
}
