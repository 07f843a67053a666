//! Whether a value is smaller than before, which a cumulative one is only where its series began anew
//! (OpenTelemetry metrics data model, "Resets and Gaps").
ghost use Rattle.std.specs.Prelude.{◌≡◌};
ghost use Rattle.start_times.specs.Starts as spec;

use crate::row::Last;
use exact_decimal::{Decimal, compare, less};
use histogram_layout::Layout;
use label_sets::Kind;

/// Whether some count is smaller than the one at its place before.
fn some_falls(old: &[u64], new: &[u64]) -> bool
    ensures { result ≡ spec.some_falls old.now new.now }
{
    let mut news = new;
    for old in old {
        match news.split_first() {
            Some((new, _)) if new < old => return true,
            Some((_, rest)) => news = rest,
            None => return false,
        }
    }
    false
}

/// Whether bounds are equal as numbers.
fn same_bounds(old: &[Decimal], new: &[Decimal]) -> bool
    ensures { result ≡ spec.same_bounds old.now new.now }
{
    let mut news = new;
    for old in old {
        let Some((new, rest)) = news.split_first() else {
            return false;
        };
        if !compare(old, new).is_eq() {
            return false;
        }
        news = rest;
    }
    news.is_empty()
}

/// Whether a histogram's count or one of its bucket counts is smaller, or its bounds are others.
#[tactic(auto, unfolding(crate::specs::Starts::layout_falls))]
fn layout_falls(old: &Layout, new: &Layout) -> bool
    ensures { result ≡ spec.layout_falls old.now new.now }
{
    new.count < old.count
        || !same_bounds(old.bounds.as_slice(), new.bounds.as_slice())
        || some_falls(old.counts.as_slice(), new.counts.as_slice())
}

/// Whether the value of a series of this kind is smaller than before.
#[tactic(auto, unfolding(crate::specs::Starts::falls))]
pub(crate) fn falls(kind: Kind, old: &Last, new: &Last) -> bool
    ensures { result ≡ spec.falls kind old.now new.now }
{
    match (kind, old, new) {
        (Kind::Counter, Last::Plain(old), Last::Plain(new)) => less(new, old),
        (Kind::Histogram, Last::Buckets(old), Last::Buckets(new)) => layout_falls(old, new),
        (Kind::Summary, Last::Count(old), Last::Count(new)) => new < old,
        _ => false,
    }
}
