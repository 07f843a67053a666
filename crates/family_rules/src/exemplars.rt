//! The rule on exemplars (OpenMetrics 1.0, "Exemplars").
ghost use Rattle.std.specs.Prelude.{◌≡◌, nat_lt, not};
ghost use Rattle.std.specs.Int.{is_in_range};
ghost use Rattle.std.specs.Str.{bytes_eq};
ghost use Rattle.page_model.specs.Suffixes.{suffix_of};
ghost use Rattle.page_model.specs.Rules.{may_have_exemplar, is_bad_exemplar, characters, exemplar_characters};

use label_sets::{Kind, Name};
use page_model::{Exemplar, Sample};

/// The most characters of an exemplar's names and values.
const MOST_EXEMPLAR_CHARACTERS: usize = 128;

/// Whether the byte continues no character of UTF-8.
fn begins_character(byte: u8) -> bool
    ensures { result ≡ not (is_in_range 128 191 byte) }
{
    !(128..=191).contains(&byte)
}

/// How many characters these bytes of UTF-8 are.
fn characters(bytes: &[u8]) -> usize
    ensures { result ≡ characters bytes.now }
{
    bytes.iter().filter(|byte| begins_character(**byte)).count()
}

/// Whether the exemplar's names and values have too many characters.
#[tactic(auto, unfolding(page_model::specs::Rules::exemplar_characters))]
fn is_long(exemplar: &Exemplar) -> bool
    ensures { result ≡ nat_lt 128 (exemplar_characters exemplar.now) }
{
    let mut count: usize = 0;
    for label in exemplar.labels.labels() {
        let own = characters(label.name.as_bytes()).saturating_add(characters(
            label.value.as_bytes(),
        ));
        count = count.saturating_add(own);
    }
    count > MOST_EXEMPLAR_CHARACTERS
}

/// Whether a name has these bytes behind as many as the family's has.
fn has_suffix(family: &Name, name: &Name, suffix: &[u8]) -> bool
    ensures { result ≡ bytes_eq (suffix_of family.now name.now) suffix.now }
{
    match name.as_bytes().get(family.len()..) {
        Some(rest) => rest == suffix,
        None => suffix.is_empty(),
    }
}

/// Whether a sample of this kind of family may have an exemplar: a counter's total and a bucket.
fn may_have_exemplar(kind: Kind, family: &Name, sample: &Sample) -> bool
    ensures { result ≡ may_have_exemplar kind family.now sample.now }
{
    match kind {
        Kind::Counter => has_suffix(family, &sample.name, b"_total"),
        Kind::Histogram | Kind::GaugeHistogram => has_suffix(family, &sample.name, b"_bucket"),
        Kind::Gauge | Kind::Unknown | Kind::Summary | Kind::Info | Kind::StateSet => false,
    }
}

/// Whether the sample has an exemplar that it may not have, or one that is too long.
#[tactic(auto, unfolding(page_model::specs::Rules::is_bad_exemplar))]
pub fn is_bad_exemplar(kind: Kind, family: &Name, sample: &Sample) -> bool
    ensures { result ≡ is_bad_exemplar kind family.now sample.now }
{
    match &sample.exemplar {
        Some(exemplar) => !may_have_exemplar(kind, family, sample) || is_long(exemplar),
        None => false,
    }
}
