//! Samples, each on a line of its own (OpenMetrics 1.0, "ABNF", sample).

ghost use Rattle.std.specs.Prelude.{◌≡◌, fold};
ghost use Rattle.page_model.specs.SuffixNames.{suffix_bytes};
ghost use Rattle.open_writing.specs.Pieces.{filled_gap, sample_line, sample_name, samples_text};
ghost use Rattle.open_writing.specs.Writing.{bare_sample, number_sample};

use crate::labels::{Gap, emit_labels};
use exact_decimal::Number;
use label_sets::{LabelSet, Name};
use page_model::Suffix;
use text_emitter::Emitter;

/// The name of samples: that of their family, and a suffix.
#[derive(Clone, Copy)]
pub(crate) struct SampleName<'a> {
    pub(crate) family: &'a Name,
    pub(crate) suffix: Suffix,
}

/// Emits a suffix.
#[inline(always)]
fn emit_suffix<E: Emitter>(out: &mut E, suffix: Suffix)
    ensures { out.new ≡ fold E.push out.old (suffix_bytes suffix) }
{
    // Each is put by itself, so that its length is known where it is copied.
    match suffix {
        Suffix::Own => {}
        Suffix::Bucket => out.put(b"_bucket"),
        Suffix::Count => out.put(b"_count"),
        Suffix::GaugeCount => out.put(b"_gcount"),
        Suffix::Sum => out.put(b"_sum"),
        Suffix::GaugeSum => out.put(b"_gsum"),
        Suffix::Total => out.put(b"_total"),
        Suffix::Created => out.put(b"_created"),
        Suffix::Info => out.put(b"_info"),
    }
}

/// Emits a sample.
pub(crate) fn emit_sample<E: Emitter>(
    out: &mut E,
    name: &SampleName<'_>,
    labels: &LabelSet,
    number: &Number,
)
    ensures { out.new ≡ fold E.push out.old
        (sample_line (bare_sample (sample_name name.now) labels.now number.now)) }
{
    out.put(name.family.as_bytes());
    emit_suffix(out, name.suffix);
    emit_labels(out, labels.labels());
    out.put_open_number(number);
    out.put(b"\n");
}

/// Emits the sample of a number, where there is one.
#[tactic(auto, unfolding(crate::specs::Pieces::samples_text))]
pub(crate) fn emit_option<E: Emitter>(
    out: &mut E,
    name: &SampleName<'_>,
    labels: &LabelSet,
    number: &Option<Number>,
)
    ensures { out.new ≡ fold E.push out.old
        (samples_text (number_sample (sample_name name.now) labels.now number.now)) }
{
    if let Some(number) = number {
        emit_sample(out, name, labels, number);
    }
}

/// Emits a sample that has one label more, whose value is a number.
pub(crate) fn emit_placed<E: Emitter>(
    out: &mut E,
    name: &SampleName<'_>,
    gap: &Gap<'_>,
    place: &Number,
    number: &Number,
)
    ensures { out.new ≡ fold E.push out.old
        (sample_line (bare_sample (sample_name name.now) (filled_gap gap.now place.now) number.now)) }
{
    out.put(name.family.as_bytes());
    emit_suffix(out, name.suffix);
    gap.emit(out, place);
    out.put_open_number(number);
    out.put(b"\n");
}
