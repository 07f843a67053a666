//! Which readings a selector matches (Prometheus, "Time series selectors"; OpenMetrics 1.0, "Suffixes").
ghost use Rattle.std.specs.Prelude.{◌≡◌, ◌||◌, [], map, true, unwrap_or};
ghost use Rattle.std.specs.List.{list_all, list_any};
ghost use Rattle.std.specs.Option.{option_map_or};
ghost use Rattle.std.specs.Str.{bytes_eq};
ghost use Rattle.label_sets.specs.Labels.{label_value};
ghost use Rattle.page_model.specs.declared.format.Format.TheVariants.{OpenMetrics};
ghost use Rattle.page_model.specs.Suffixes.{suffixes};
ghost use Rattle.page_model.specs.SuffixNames.{suffix_bytes};
ghost use Rattle.series_select.specs.Selection.{is_called, is_name_asked, told};
ghost use Rattle.series_select.specs.SelectionSteps.{label_holds, labels_hold, name_holds, names_hold, selectors_behind};

use crate::selector::{Matcher, Selector};
use label_sets::{Kind, LabelSet};
use line_scan::is_word;
use open_writing::open_suffixes;
use page_model::{Family, Reading, Suffix};

/// Whether bytes are one of the suffixes.
fn is_among(suffixes: &[Suffix], bytes: &[u8]) -> bool
    ensures { result ≡ list_any (bytes_eq bytes.now) (map suffix_bytes suffixes.now) }
{
    for suffix in suffixes {
        if is_word(bytes, suffix.as_str()) {
            return true;
        }
    }
    false
}

/// Whether bytes behind the name of a family of this kind make a name by which it can be asked for.
fn is_ending(kind: Kind, bytes: &[u8]) -> bool
    ensures { result ≡ (bytes_eq bytes.now [] || list_any (bytes_eq bytes.now) (suffixes OpenMetrics kind)) }
{
    if is_word(bytes, "") {
        return true;
    }
    is_among(open_suffixes(kind), bytes)
}

/// Whether the readings of a family can be asked for by this name.
fn is_called(family: &Family, name: &[u8]) -> bool
    ensures { result ≡ is_called family.now name.now }
{
    match name.strip_prefix(family.name.as_bytes()) {
        Some(ending) => is_ending(family.kind, ending),
        None => false,
    }
}

/// Whether a matcher asks for a name of the reading, and not for a label.
fn is_name_asked(matcher: &Matcher) -> bool
    ensures { result ≡ is_name_asked matcher.now }
{
    matcher.name.as_str() == "__name__"
}

/// What a matcher says where what it compares is the same, or isn't.
fn told(matcher: &Matcher, same: bool) -> bool
    ensures { result ≡ told matcher.now.differs same }
{
    if matcher.differs { !same } else { same }
}

/// Whether a matcher holds of a family as far as it asks for a name.
fn name_holds(matcher: &Matcher, family: &Family) -> bool
    ensures { result ≡ name_holds family.now matcher.now }
{
    if !is_name_asked(matcher) {
        return true;
    }
    told(matcher, is_called(family, matcher.value.as_bytes()))
}

/// The value of a label, which is empty where the set lacks it.
fn value_of<'a>(labels: &'a LabelSet, name: &[u8]) -> &'a [u8]
    ensures { result.now ≡ unwrap_or (label_value name.now labels.entry.now) [] }
{
    match labels.value(name) {
        Some(value) => value.as_bytes(),
        None => &[],
    }
}

/// Whether a matcher holds of a reading as far as it asks for a label.
fn label_holds(matcher: &Matcher, reading: &Reading) -> bool
    ensures { result ≡ label_holds reading.now matcher.now }
{
    if is_name_asked(matcher) {
        return true;
    }
    let value = value_of(&reading.key.labels, matcher.name.as_bytes());
    told(matcher, value == matcher.value.as_bytes())
}

/// Whether a selector's name, where it has one, is a family's.
fn front_holds(selector: &Selector, family: &Family) -> bool
    ensures { result ≡ option_map_or (is_called family.now) selector.now.name true }
{
    match &selector.name {
        Some(name) => is_called(family, name.as_bytes()),
        None => true,
    }
}

/// Whether matchers hold of a family as far as they ask for a name.
fn matchers_name(matchers: &[Matcher], family: &Family) -> bool
    ensures { result ≡ list_all (name_holds family.now) matchers.now }
{
    for matcher in matchers {
        if !name_holds(matcher, family) {
            return false;
        }
    }
    true
}

/// Whether a selector holds of a family as far as it asks for a name.
#[tactic(auto, unfolding(crate::specs::SelectionSteps::names_hold))]
pub(crate) fn names_hold(selector: &Selector, family: &Family) -> bool
    ensures { result ≡ names_hold family.now selector.now }
{
    if !front_holds(selector, family) {
        return false;
    }
    matchers_name(selector.matchers.as_slice(), family)
}

/// Whether a selector holds of a reading as far as it asks for labels.
#[tactic(auto, unfolding(crate::specs::SelectionSteps::labels_hold))]
fn labels_hold(selector: &Selector, reading: &Reading) -> bool
    ensures { result ≡ labels_hold reading.now selector.now }
{
    let matchers = selector.matchers.as_slice();
    for matcher in matchers {
        if !label_holds(matcher, reading) {
            return false;
        }
    }
    true
}

/// Whether some of the selectors holds of a reading as far as it asks for labels.
pub(crate) fn some_labels_hold(selectors: &[&Selector], reading: &Reading) -> bool
    ensures { result ≡ list_any (labels_hold reading.now) (selectors_behind selectors.now) }
{
    for selector in selectors {
        if labels_hold(selector, reading) {
            return true;
        }
    }
    false
}
