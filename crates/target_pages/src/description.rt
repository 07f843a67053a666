//! What pages say of their target as a resource.
ghost use Rattle.std.specs.Prelude.{◌≡◌, find, codes, IfOk};
ghost use Rattle.std.specs.Option.{option_copied};
ghost use Rattle.exact_decimal.specs.Order.{same};
ghost use Rattle.label_sets.specs.Labels.{without_label};
ghost use Rattle.page_model.specs.Presence.{all_readings};
ghost use Rattle.target_pages.specs.Stretches as spec;

use exact_decimal::{Number, compare, of};
use label_sets::{Kind, LabelSet, Memory};
use page_model::{Outcome, Page, Reading, Value};
use std::alloc::Global;

/// Whether target info may be of this kind.
#[tactic(auto, unfolding(crate::specs::Stretches::may_describe))]
fn may_describe(kind: Kind) -> bool
    ensures { result ≡ spec.may_describe kind }
{
    matches!(kind, Kind::Gauge | Kind::Info | Kind::Unknown)
}

/// Whether both are one value.
#[tactic(auto, unfolding(exact_decimal::specs::Order::same))]
fn are_same(a: &Number, b: &Number) -> bool
    ensures { result ≡ same a.now b.now }
{
    match a {
        Number::Finite(x) => match b {
            Number::Finite(y) => compare(x, y).is_eq(),
            Number::Up | Number::Down | Number::NotANumber => false,
        },
        Number::Up => matches!(b, Number::Up),
        Number::Down => matches!(b, Number::Down),
        Number::NotANumber => false,
    }
}

/// Whether a value is the number 1.
#[tactic(auto, unfolding(crate::specs::Stretches::is_one))]
fn is_one(value: &Value) -> bool
    ensures { result ≡ spec.is_one value.now }
{
    let Value::Plain(number) = value else {
        return false;
    };
    let one = of(1);
    are_same(number, &one)
}

/// Whether a reading describes the target.
#[tactic(auto, unfolding(crate::specs::Stretches::is_info))]
pub(crate) fn is_info(reading: &Reading) -> bool
    ensures { result ≡ spec.is_info reading.now }
{
    reading.key.name.as_bytes() == b"target_info".as_slice()
        && may_describe(reading.key.kind)
        && is_one(&reading.value)
}

/// The first of the readings that describes the target, where one does.
pub(crate) fn info_among(readings: &[Reading]) -> Option<&Reading>
    ensures { option_copied result ≡ find spec.is_info readings.now }
{
    for reading in readings {
        if is_info(reading) {
            return Some(reading);
        }
    }
    None
}

/// The first reading of a page that describes the target, where one does.
pub(crate) fn info_of(page: &Page) -> Option<&Reading>
    ensures { option_copied result ≡ find spec.is_info (all_readings page.now) }
{
    for family in page.families().as_slice() {
        let info = info_among(family.readings.as_slice());
        if info.is_some() {
            return info;
        }
    }
    None
}

/// The labels of a reading that describes the target, without the job and instance that it had there.
fn described_by(alloc: Global, labels: &LabelSet) -> Result<LabelSet, Memory>
    ensures { IfOk result (λ left. left ≡ without_label (codes "exported_job") (without_label (codes "exported_instance") labels.now)) }
{
    let rest = labels.without(alloc, b"exported_instance")?;
    rest.without(alloc, b"exported_job")
}

/// The attributes that a page gives its target.
#[tactic(auto, unfolding(crate::specs::Stretches::attributes_in))]
fn attributes_in(alloc: Global, page: &Page) -> Result<LabelSet, Memory>
    ensures { IfOk result (λ attributes. attributes ≡ spec.attributes_in page.now) }
{
    match info_of(page) {
        Some(info) => described_by(alloc, &info.key.labels),
        None => Ok(LabelSet::empty(alloc)),
    }
}

/// The attributes of a target behind an outcome, beside those before.
pub(crate) fn attributes_after(
    alloc: Global,
    before: &LabelSet,
    outcome: &Outcome,
) -> Result<LabelSet, Memory>
    ensures { IfOk result (λ attributes. attributes ≡ spec.attributes_after before.now outcome.now) }
{
    match outcome {
        Outcome::Page(page) => attributes_in(alloc, page),
        Outcome::Failed(_) => before.copy(),
    }
}
