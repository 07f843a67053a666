//! The rules on the values and labels of samples, and what a sample is to its group (OpenMetrics 1.0, "Info",
//! "StateSet").
ghost use Rattle.std.specs.Prelude.{◌≡◌, false};
ghost use Rattle.std.specs.Str.{bytes_eq};
ghost use Rattle.exact_decimal.specs.Numbers.{number_of};
ghost use Rattle.exact_decimal.specs.Order.{same};
ghost use Rattle.label_sets.specs.Labels.{has_name};
ghost use Rattle.page_model.specs.Written.{Setting};
ghost use Rattle.page_model.specs.Rules.{has_wrong_suffix};
ghost use Rattle.family_rules.specs.Samples.{told_part, is_bad_plain_value};

use exact_decimal::{Number, compare, of};
use label_sets::{Kind, Label, LabelSet, Name};
use page_model::{Format, Rule, Sample};
use sample_groups::{Part, is_grouped, part_of};

/// Whether both are one value.
#[tactic(auto, unfolding(exact_decimal::specs::Order::same))]
fn are_same(a: &Number, b: &Number) -> bool
    ensures { result ≡ same a.now b.now }
{
    match a {
        Number::Finite(x) => match b {
            Number::Finite(y) => compare(x, y).is_eq(),
            Number::Up | Number::Down | Number::NotANumber => false,
        },
        Number::Up => matches!(b, Number::Up),
        Number::Down => matches!(b, Number::Down),
        Number::NotANumber => false,
    }
}

/// Whether it is this whole number.
fn is_number(value: &Number, whole: u64) -> bool
    ensures { result ≡ same value.now (number_of whole) }
{
    let whole = of(whole);
    are_same(value, &whole)
}

/// Whether the label has this name.
fn is_named(label: &Label, name: &Name) -> bool
    ensures { result ≡ bytes_eq label.now.name name.now }
{
    label.name == *name
}

/// Whether one of the labels has this name.
fn has_name(labels: &LabelSet, name: &Name) -> bool
    ensures { result ≡ has_name labels.now name.now }
{
    for label in labels.labels() {
        if is_named(label, name) {
            return true;
        }
    }
    false
}

/// Rule 15 of a kind whose samples are readings of their own.
#[tactic(auto, unfolding(crate::specs::Samples::is_bad_plain_value))]
fn is_bad_plain_value(kind: Kind, family: &Name, sample: &Sample) -> bool
    ensures { result ≡ is_bad_plain_value kind family.now sample.now }
{
    match kind {
        Kind::Info => !is_number(&sample.value, 1),
        Kind::StateSet => {
            !(is_number(&sample.value, 0) || is_number(&sample.value, 1))
                || !has_name(&sample.labels, family)
        }
        _ => false,
    }
}

/// What a sample whose name the kind allows is to its group, where the kind has groups, or the rule that its
/// value or its label breaks: 15 or 16.
///
/// # Errors
///
/// The rule that the sample breaks.
pub fn part_or_rule(
    format: Format,
    kind: Kind,
    family: &Name,
    sample: &Sample,
) -> Result<Option<Part>, Rule>
    ensures { (st : Setting) → st.format ≡ format → has_wrong_suffix st kind family.now sample.now ≡ false → result ≡ told_part st kind family.now sample.now }
{
    if !is_grouped(format, kind) {
        if is_bad_plain_value(kind, family, sample) {
            return Err(Rule::Value);
        }
        return Ok(None);
    }
    match part_of(kind, family, sample) {
        Ok(part) => Ok(Some(part)),
        Err(rule) => Err(rule),
    }
}
