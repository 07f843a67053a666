//! The suffixes of sample names (OpenMetrics 1.0, "Suffixes").
ghost use Rattle.std.specs.Prelude.{◌≡◌, map};
ghost use Rattle.page_model.specs.declared.format.Format.TheVariants.{OpenMetrics};
ghost use Rattle.page_model.specs.Suffixes.{suffixes};
ghost use Rattle.page_model.specs.SuffixNames.{suffix_bytes};

use label_sets::Kind;
use page_model::Suffix;

/// The suffixes of the sample names that a kind allows on a page of OpenMetrics.
pub fn open_suffixes(kind: Kind) -> &'static [Suffix]
    ensures { map suffix_bytes result.now ≡ suffixes OpenMetrics kind }
{
    match kind {
        Kind::Gauge | Kind::Unknown | Kind::StateSet => &[Suffix::Own],
        Kind::Info => &[Suffix::Info],
        Kind::Counter => &[Suffix::Total, Suffix::Created],
        Kind::Histogram => &[Suffix::Bucket, Suffix::Count, Suffix::Sum, Suffix::Created],
        Kind::GaugeHistogram => &[Suffix::Bucket, Suffix::GaugeCount, Suffix::GaugeSum],
        Kind::Summary => &[Suffix::Own, Suffix::Count, Suffix::Sum, Suffix::Created],
    }
}
