//! What is asked of the parts of a group, in the order of their lines.
ghost use Rattle.std.specs.Prelude.{◌≡◌, ◌==◌, filter_map, None, IfOk};
ghost use Rattle.std.specs.List.{last_or, list_all, list_any};
ghost use Rattle.label_sets.specs.Lists.{first_some, some_passes};
ghost use Rattle.exact_decimal.specs.declared.number.Number.TheVariants.{Finite};
ghost use Rattle.exact_decimal.specs.Order.{same};
ghost use Rattle.page_model.specs.declared.page.Quantile.{Quantile as AnyQuantile};
ghost use Rattle.sample_groups.specs.Groups.{bucket_in, quantile_in, sum_in, count_in, total_in, created_in, is_measure};
ghost use Rattle.sample_groups.specs.Places.{has_place};

use crate::part::Part;
use exact_decimal::{Decimal, Number, compare};
use label_sets::Memory;
use page_model::{Bucket, Quantile};
use std::alloc::Global;

/// The last bucket.
pub(crate) fn last_bucket(parts: &[Part]) -> Option<Bucket>
    ensures { result ≡ last_or None (filter_map bucket_in parts.now) }
{
    let mut front = parts;
    while let Some((last, before)) = front.split_last() {
        let bucket = last.bucket();
        if bucket.is_some() {
            return bucket;
        }
        front = before;
    }
    None
}

/// The first sum.
pub(crate) fn first_sum(parts: &[Part]) -> Option<Number>
    ensures { result ≡ first_some sum_in parts.now }
{
    for part in parts {
        let sum = part.sum();
        if sum.is_some() {
            return sum;
        }
    }
    None
}

/// The first count.
pub(crate) fn first_count(parts: &[Part]) -> Option<u64>
    ensures { result ≡ first_some count_in parts.now }
{
    for part in parts {
        let count = part.count();
        if count.is_some() {
            return count;
        }
    }
    None
}

/// The first total.
pub(crate) fn first_total(parts: &[Part]) -> Option<Number>
    ensures { result ≡ first_some total_in parts.now }
{
    for part in parts {
        let total = part.total();
        if total.is_some() {
            return total;
        }
    }
    None
}

/// The first created time.
pub(crate) fn first_created(parts: &[Part]) -> Option<Number>
    ensures { result ≡ first_some created_in parts.now }
{
    for part in parts {
        let created = part.created_time();
        if created.is_some() {
            return created;
        }
    }
    None
}

/// Whether one of them is more than a created time.
pub(crate) fn has_measure(parts: &[Part]) -> bool
    ensures { result ≡ list_any is_measure parts.now }
{
    for part in parts {
        if part.is_measure() {
            return true;
        }
    }
    false
}

/// Whether each count is this one.
pub(crate) fn counts_are(parts: &[Part], count: u64) -> bool
    ensures { result ≡ list_all (λ n. n == count) (filter_map count_in parts.now) }
{
    for part in parts {
        if part.count().unwrap_or(count) != count {
            return false;
        }
    }
    true
}

/// Whether the part is a quantile at this place.
fn is_at(part: &Part, at: &Decimal) -> bool
    ensures { result ≡ some_passes (λ (q : AnyQuantile). same (Finite q.at) (Finite at.now)) (quantile_in part.now) }
{
    match part {
        Part::Quantile(quantile) => compare(&quantile.at, at).is_eq(),
        _ => false,
    }
}

/// Whether there is a quantile at this place.
pub(crate) fn has_place(parts: &[Part], at: &Decimal) -> bool
    ensures { result ≡ has_place (filter_map quantile_in parts.now) at.now }
{
    for part in parts {
        if is_at(part, at) {
            return true;
        }
    }
    false
}

/// The buckets.
pub(crate) fn buckets(alloc: Global, parts: &[Part]) -> Result<Vec<Bucket>, Memory>
    ensures { IfOk result (λ buckets. buckets.items ≡ filter_map bucket_in parts.now) }
{
    let mut buckets = Vec::with_capacity(alloc, parts.len())?;
    for part in parts {
        if let Some(bucket) = part.bucket() {
            buckets.push(bucket)?;
        }
    }
    Ok(buckets)
}

/// The quantiles.
pub(crate) fn quantiles(alloc: Global, parts: &[Part]) -> Result<Vec<Quantile>, Memory>
    ensures { IfOk result (λ quantiles. quantiles.items ≡ filter_map quantile_in parts.now) }
{
    let mut quantiles = Vec::with_capacity(alloc, parts.len())?;
    for part in parts {
        if let Some(quantile) = part.quantile() {
            quantiles.push(quantile)?;
        }
    }
    Ok(quantiles)
}
