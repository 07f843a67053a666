//! What a sample is to its group, by its name, its value and its label `le` or `quantile` (Prometheus text
//! format 0.0.4, "Histograms and summaries"; OpenMetrics 1.0, "Metric types").
ghost use Rattle.std.specs.Prelude.{◌≡◌, true, false};
ghost use Rattle.std.specs.Option.{option_map_or};
ghost use Rattle.exact_decimal.specs.declared.number.Number.TheVariants.{NotANumber};
ghost use Rattle.exact_decimal.specs.Numbers.{number};
ghost use Rattle.label_sets.specs.Labels.{label_value};
ghost use Rattle.page_model.specs.Written.{Setting};
ghost use Rattle.page_model.specs.Rules.{has_wrong_suffix};
ghost use Rattle.sample_groups.specs.Parts.{is_grouped};
ghost use Rattle.sample_groups.specs.Finding.{unplaced, bucket_found, count_found, quantile_found, total_found, created_found, found, grouped_part};

use crate::shared::{has_label, place_name};
use exact_decimal::{Number, less, of, read, whole};
use label_sets::{Kind, Name};
use page_model::{Bucket, Format, Quantile, Rule, Sample, Suffix, sample_suffix};

/// What a sample is to its group.
#[derive(Clone, Copy)]
pub enum Part {
    Bucket(Bucket),
    Quantile(Quantile),
    Sum(Number),
    Count(u64),
    /// A counter's value in OpenMetrics.
    Total(Number),
    /// When the counts began, in seconds.
    Created(Number),
}

impl Part {
    ghost use Rattle.sample_groups.specs.Groups.{bucket_in, quantile_in, sum_in, count_in, total_in, created_in, is_measure, bears_exemplar};

    /// The bucket that it is.
    pub(crate) fn bucket(&self) -> Option<Bucket>
        ensures { result ≡ bucket_in self.now }
    {
        match self {
            Part::Bucket(bucket) => Some(*bucket),
            _ => None,
        }
    }

    /// The quantile that it is.
    pub(crate) fn quantile(&self) -> Option<Quantile>
        ensures { result ≡ quantile_in self.now }
    {
        match self {
            Part::Quantile(quantile) => Some(*quantile),
            _ => None,
        }
    }

    /// The sum that it is.
    pub(crate) fn sum(&self) -> Option<Number>
        ensures { result ≡ sum_in self.now }
    {
        match self {
            Part::Sum(sum) => Some(*sum),
            _ => None,
        }
    }

    /// The count that it is.
    pub(crate) fn count(&self) -> Option<u64>
        ensures { result ≡ count_in self.now }
    {
        match self {
            Part::Count(count) => Some(*count),
            _ => None,
        }
    }

    /// The total that it is.
    pub(crate) fn total(&self) -> Option<Number>
        ensures { result ≡ total_in self.now }
    {
        match self {
            Part::Total(total) => Some(*total),
            _ => None,
        }
    }

    /// Whether it is more than a created time.
    pub(crate) fn is_measure(&self) -> bool
        ensures { result ≡ is_measure self.now }
    {
        match self {
            Part::Created(_) => false,
            _ => true,
        }
    }

    /// Whether it may have an exemplar (OpenMetrics 1.0, "Exemplars").
    pub(crate) fn bears_exemplar(&self) -> bool
        ensures { result ≡ bears_exemplar self.now }
    {
        match self {
            Part::Bucket(_) => true,
            Part::Total(_) => true,
            _ => false,
        }
    }

    /// The created time that it is.
    pub(crate) fn created_time(&self) -> Option<Number>
        ensures { result ≡ created_in self.now }
    {
        match self {
            Part::Created(created) => Some(*created),
            _ => None,
        }
    }
}

/// Whether several samples of a family of this kind make one reading.
pub fn is_grouped(format: Format, kind: Kind) -> bool
    ensures { result ≡ is_grouped format kind }
{
    match kind {
        Kind::Histogram | Kind::GaugeHistogram | Kind::Summary => true,
        Kind::Counter => format == Format::OpenMetrics,
        _ => false,
    }
}

/// The number that a label's text spells; without the label it is not a number.
fn label_number(sample: &Sample, name: &[u8]) -> Number
    ensures { result ≡ option_map_or number (label_value name.now sample.now.labels) NotANumber }
{
    match sample.labels.value(name) {
        Some(text) => read(text.as_bytes()).unwrap_or(Number::NotANumber),
        None => Number::NotANumber,
    }
}

/// The part of a sample that may have no label `le` or `quantile`, or rule `Threshold`.
fn unplaced(kind: Kind, sample: &Sample, part: Part) -> Result<Part, Rule>
    ensures { result ≡ unplaced kind sample.now part }
{
    match place_name(kind) {
        Some(name) if has_label(&sample.labels, name) => Err(Rule::Threshold),
        _ => Ok(part),
    }
}

/// A bucket, or the rule that it breaks.
fn bucket(sample: &Sample) -> Result<Part, Rule>
    ensures { result ≡ bucket_found sample.now }
{
    let Some(count) = whole(&sample.value) else {
        return Err(Rule::Value);
    };
    match label_number(sample, b"le") {
        Number::Down | Number::NotANumber => Err(Rule::Threshold),
        le => Ok(Part::Bucket(Bucket { le, count })),
    }
}

/// A count, or the rule that it breaks.
fn count(kind: Kind, sample: &Sample) -> Result<Part, Rule>
    ensures { result ≡ count_found kind sample.now }
{
    match whole(&sample.value) {
        Some(count) => unplaced(kind, sample, Part::Count(count)),
        None => Err(Rule::Value),
    }
}

/// A quantile, or the rule that it breaks.
fn quantile(sample: &Sample) -> Result<Part, Rule>
    ensures { result ≡ quantile_found sample.now }
{
    match label_number(sample, b"quantile") {
        Number::Finite(at) => Ok(Part::Quantile(Quantile {
            at,
            value: sample.value,
        })),
        _ => Err(Rule::Threshold),
    }
}

/// A total, or the rule that it breaks.
fn total(sample: &Sample) -> Result<Part, Rule>
    ensures { result ≡ total_found sample.now }
{
    if sample.value == Number::NotANumber || less(&sample.value, &of(0)) {
        Err(Rule::Value)
    } else {
        Ok(Part::Total(sample.value))
    }
}

/// A created time, or the rule that it breaks.
fn created_time(kind: Kind, sample: &Sample) -> Result<Part, Rule>
    ensures { result ≡ created_found kind sample.now }
{
    match sample.value {
        Number::Finite(_) => unplaced(kind, sample, Part::Created(sample.value)),
        _ => Err(Rule::Value),
    }
}

/// The part of a sample with this suffix, or the rule that it breaks.
fn part_with(kind: Kind, sample: &Sample, suffix: Suffix) -> Result<Part, Rule>
    ensures { result ≡ found kind sample.now suffix }
{
    match suffix {
        Suffix::Own => quantile(sample),
        Suffix::Bucket => bucket(sample),
        Suffix::Count | Suffix::GaugeCount => count(kind, sample),
        Suffix::Total => total(sample),
        Suffix::Created => created_time(kind, sample),
        Suffix::Sum | Suffix::GaugeSum | Suffix::Info => {
            unplaced(kind, sample, Part::Sum(sample.value))
        }
    }
}

/// The part of a sample whose name the kind allows, or the rule that its value or its label breaks.
///
/// # Errors
///
/// The rule that the sample breaks: [`Rule::Value`] where its value is none that its place may have, else
/// [`Rule::Threshold`].
///
/// # Example
///
/// ```rust
/// // `sample` is that of the line `h_bucket{le="0.1"} 2`, and `bare` that of `h_bucket 1`.
/// let family = Name::from_str(alloc, "h")?;
/// let part = part_of(Kind::Histogram, &family, &sample)?;
/// assert!(rt; matches!(part, Part::Bucket(bucket) if bucket.count == 2));
/// assert_eq!(rt; part_of(Kind::Histogram, &family, &bare).err(), Some(Rule::Threshold));
/// ```
pub fn part_of(kind: Kind, family: &Name, sample: &Sample) -> Result<Part, Rule>
    ensures { (st : Setting) → is_grouped st.format kind ≡ true → has_wrong_suffix st kind family.now sample.now ≡ false
        → result ≡ grouped_part st.format kind family.now sample.now }
{
    // A name that the kind allows has a suffix.
    let suffix = sample_suffix(family, &sample.name).unwrap_or(Suffix::Sum);
    part_with(kind, sample, suffix)
}
