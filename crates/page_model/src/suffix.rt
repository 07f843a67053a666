//! What the name of a sample has behind the name of its family (Prometheus text format 0.0.4, "Histograms and
//! summaries"; OpenMetrics 1.0, "Suffixes").
ghost use Rattle.std.specs.Prelude.{◌≡◌, ◌++◌, Some, IfSome};
ghost use Rattle.std.specs.List.{list_any};
ghost use Rattle.std.specs.Str.{bytes_eq};
ghost use Rattle.page_model.specs.declared.suffix.Suffix.{Suffix as AnySuffix};
ghost use Rattle.page_model.specs.Suffixes.{suffixes, is_sample_name};
ghost use Rattle.page_model.specs.SuffixNames.{suffix_bytes, suffix_named};

use crate::format::Format;
use label_sets::{Kind, Name};

/// A suffix of sample names.
#[derive(Clone, Copy, Debug, PartialEq, Eq)]
pub enum Suffix {
    /// Nothing: the name is the family's own.
    Own,
    Bucket,
    Count,
    /// A gauge histogram's `_gcount`.
    GaugeCount,
    Sum,
    /// A gauge histogram's `_gsum`.
    GaugeSum,
    Total,
    Created,
    Info,
}

impl Suffix {
    ghost use Rattle.page_model.specs.SuffixNames.{suffix_bytes};

    /// Its text.
    pub fn as_str(&self) -> &'static str
        ensures { result.now ≡ suffix_bytes self.now }
    {
        match self {
            Suffix::Own => "",
            Suffix::Bucket => "_bucket",
            Suffix::Count => "_count",
            Suffix::GaugeCount => "_gcount",
            Suffix::Sum => "_sum",
            Suffix::GaugeSum => "_gsum",
            Suffix::Total => "_total",
            Suffix::Created => "_created",
            Suffix::Info => "_info",
        }
    }

    /// Whether a family of this kind allows it.
    fn is_allowed(self, format: Format, kind: Kind) -> bool
        ensures { result ≡ list_any (bytes_eq (suffix_bytes self)) (suffixes format kind) }
    {
        match kind {
            Kind::Gauge | Kind::Unknown | Kind::StateSet => self == Suffix::Own,
            Kind::Info => self == Suffix::Info,
            Kind::GaugeHistogram => matches!(
                self,
                Suffix::Bucket | Suffix::GaugeCount | Suffix::GaugeSum
            ),
            Kind::Counter => match format {
                Format::Text => self == Suffix::Own,
                Format::OpenMetrics => matches!(self, Suffix::Total | Suffix::Created),
            },
            Kind::Histogram => match self {
                Suffix::Bucket | Suffix::Count | Suffix::Sum => true,
                Suffix::Created => format == Format::OpenMetrics,
                _ => false,
            },
            Kind::Summary => match self {
                Suffix::Own | Suffix::Count | Suffix::Sum => true,
                Suffix::Created => format == Format::OpenMetrics,
                _ => false,
            },
        }
    }
}

/// Whether bytes are a suffix.
fn is(bytes: &[u8], suffix: &[u8]) -> bool
    ensures { result ≡ bytes_eq bytes.now suffix.now }
{
    bytes == suffix
}

/// The suffix that these bytes are. Those that most samples have come first.
#[tactic(auto, unfolding(crate::specs::SuffixNames::suffix_named))]
fn suffix_named(bytes: &[u8]) -> Option<Suffix>
    ensures { result ≡ suffix_named bytes.now }
{
    if bytes.is_empty() {
        return Some(Suffix::Own);
    }
    if is(bytes, b"_bucket") {
        return Some(Suffix::Bucket);
    }
    if is(bytes, b"_count") {
        return Some(Suffix::Count);
    }
    if is(bytes, b"_sum") {
        return Some(Suffix::Sum);
    }
    if is(bytes, b"_total") {
        return Some(Suffix::Total);
    }
    if is(bytes, b"_created") {
        return Some(Suffix::Created);
    }
    if is(bytes, b"_gcount") {
        return Some(Suffix::GaugeCount);
    }
    if is(bytes, b"_gsum") {
        return Some(Suffix::GaugeSum);
    }
    if is(bytes, b"_info") {
        return Some(Suffix::Info);
    }
    None
}

/// The suffix that a sample's name has behind its family's.
///
/// # Example
///
/// ```rust
/// let family = Name::from_str(alloc, "h")?;
/// let bucket = Name::from_str(alloc, "h_bucket")?;
/// assert_eq!(rt; sample_suffix(&family, &bucket), Some(Suffix::Bucket));
/// assert_eq!(rt; sample_suffix(&family, &family), Some(Suffix::Own));
/// ```
pub fn sample_suffix(family: &Name, name: &Name) -> Option<Suffix>
    ensures found { IfSome result (λ suffix. name.now ≡ family.now ++ suffix_bytes suffix) }
    ensures only { (suffix : AnySuffix) → name.now ≡ family.now ++ suffix_bytes suffix → result ≡ Some suffix }
{
    match name.as_bytes().strip_prefix(family.as_bytes()) {
        Some(rest) => suffix_named(rest),
        None => None,
    }
}

/// Whether a sample's name is its family's name and a suffix that its kind allows.
pub fn is_sample_name(format: Format, kind: Kind, family: &Name, name: &Name) -> bool
    ensures { result ≡ is_sample_name format kind family.now name.now }
{
    match sample_suffix(family, name) {
        Some(suffix) => suffix.is_allowed(format, kind),
        None => false,
    }
}
