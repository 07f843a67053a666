//! Readings as their samples (OpenMetrics 1.0, "Metric Types").

ghost use Rattle.std.specs.Prelude.{◌≡◌, ◌++◌, ℕ, List as Seq, codes, fold, option_map};
ghost use Rattle.exact_decimal.specs.Numbers.{number_of};
ghost use Rattle.page_model.specs.declared.format.Format.TheVariants.{OpenMetrics};
ghost use Rattle.page_model.specs.declared.page.Value.TheVariants as values;
ghost use Rattle.page_model.specs.Readings.{key_name};
ghost use Rattle.page_model.specs.SuffixNames.{suffix_bytes};
ghost use Rattle.open_writing.specs.Pieces.{buckets_text, quantiles_text, samples_text, value_text};
ghost use Rattle.open_writing.specs.Writing.{count_suffix, number_sample, observations, reading_samples, sum_suffix, total_samples};

use crate::labels::Gap;
use crate::samples::{SampleName, emit_option, emit_placed, emit_sample};
use exact_decimal::Number;
use label_sets::{Kind, LabelSet, List, Name};
use page_model::{Bucket, Quantile, Reading, Suffix, Value};
use text_emitter::Emitter;

/// What the samples of a reading share.
#[derive(Clone, Copy)]
struct Metric<'a> {
    kind: Kind,
    family: &'a Name,
    labels: &'a LabelSet,
}

impl<'a> Metric<'a> {
    /// The name of its samples with this suffix.
    fn name(&self, suffix: Suffix) -> SampleName<'a>
        ensures family { result.family.now ≡ self.now.family.now }
        ensures suffix { result.suffix ≡ suffix }
    {
        SampleName {
            family: self.family,
            suffix,
        }
    }
}

/// The suffix of the one sample that a reading of this kind has.
fn own_suffix(kind: Kind) -> Suffix
    ensures { (family : Seq ℕ) → family ++ suffix_bytes result ≡ key_name OpenMetrics kind family }
{
    match kind {
        Kind::Counter => Suffix::Total,
        Kind::Info => Suffix::Info,
        Kind::Gauge
        | Kind::Histogram
        | Kind::GaugeHistogram
        | Kind::StateSet
        | Kind::Summary
        | Kind::Unknown => Suffix::Own,
    }
}

/// The suffixes of a histogram's count and sum.
fn total_suffixes(kind: Kind) -> (Suffix, Suffix)
    ensures count { suffix_bytes result.0 ≡ count_suffix kind }
    ensures sum { suffix_bytes result.1 ≡ sum_suffix kind }
{
    if kind == Kind::GaugeHistogram {
        return (Suffix::GaugeCount, Suffix::GaugeSum);
    }
    (Suffix::Count, Suffix::Sum)
}

/// Emits buckets.
#[tactic(auto, unfolding(crate::specs::Pieces::buckets_text))]
fn emit_buckets<E: Emitter>(out: &mut E, metric: &Metric<'_>, buckets: &List<Bucket>)
    ensures { out.new ≡ fold E.push out.old (buckets_text metric.now.family.now metric.now.labels.now buckets.now) }
{
    let gap = Gap::new(metric.labels.labels(), b"le");
    let buckets = buckets.as_slice();
    for bucket in buckets {
        let count = exact_decimal::of(bucket.count);
        emit_placed(out, &metric.name(Suffix::Bucket), &gap, &bucket.le, &count);
    }
}

/// How many observations buckets have: the count of the last.
fn observations_of(buckets: &[Bucket]) -> u64
    ensures { result ≡ observations buckets.now }
{
    match buckets.last() {
        Some(bucket) => bucket.count,
        None => 0,
    }
}

/// Emits a histogram's count and sum, where it has a sum.
#[tactic(auto, unfolding(crate::specs::Pieces::samples_text))]
fn emit_totals<E: Emitter>(
    out: &mut E,
    metric: &Metric<'_>,
    buckets: &List<Bucket>,
    sum: &Option<Number>,
)
    ensures { out.new ≡ fold E.push out.old
        (samples_text (total_samples metric.now.kind metric.now.family.now metric.now.labels.now buckets.now sum.now)) }
{
    let Some(sum) = sum else {
        return;
    };
    let (count_suffix, sum_suffix) = total_suffixes(metric.kind);
    let count = exact_decimal::of(observations_of(buckets.as_slice()));
    emit_sample(out, &metric.name(count_suffix), metric.labels, &count);
    emit_sample(out, &metric.name(sum_suffix), metric.labels, sum);
}

/// Emits the samples of a histogram.
fn emit_histogram<E: Emitter>(
    out: &mut E,
    metric: &Metric<'_>,
    buckets: &List<Bucket>,
    sum: &Option<Number>,
)
    ensures { out.new ≡ fold E.push out.old
        (value_text metric.now.kind metric.now.family.now metric.now.labels.now (values.Buckets buckets.now sum.now)) }
{
    emit_buckets(out, metric, buckets);
    emit_totals(out, metric, buckets, sum);
}

/// Emits quantiles.
#[tactic(auto, unfolding(crate::specs::Pieces::quantiles_text))]
fn emit_quantiles<E: Emitter>(out: &mut E, metric: &Metric<'_>, quantiles: &List<Quantile>)
    ensures { out.new ≡ fold E.push out.old (quantiles_text metric.now.family.now metric.now.labels.now quantiles.now) }
{
    let gap = Gap::new(metric.labels.labels(), b"quantile");
    let quantiles = quantiles.as_slice();
    for quantile in quantiles {
        let place = Number::Finite(quantile.at);
        emit_placed(
            out,
            &metric.name(Suffix::Own),
            &gap,
            &place,
            &quantile.value,
        );
    }
}

/// Emits a summary's count, where there is one.
#[tactic(auto, unfolding(crate::specs::Pieces::samples_text))]
fn emit_count<E: Emitter>(out: &mut E, metric: &Metric<'_>, count: Option<u64>)
    ensures { out.new ≡ fold E.push out.old
        (samples_text (number_sample (metric.now.family.now ++ codes "_count") metric.now.labels.now (option_map number_of count))) }
{
    if let Some(count) = count {
        let count = exact_decimal::of(count);
        emit_sample(out, &metric.name(Suffix::Count), metric.labels, &count);
    }
}

/// Emits a summary's sum, where there is one.
fn emit_sum<E: Emitter>(out: &mut E, metric: &Metric<'_>, sum: &Option<Number>)
    ensures { out.new ≡ fold E.push out.old
        (samples_text (number_sample (metric.now.family.now ++ codes "_sum") metric.now.labels.now sum.now)) }
{
    emit_option(out, &metric.name(Suffix::Sum), metric.labels, sum);
}

/// Emits a created time, where there is one.
fn emit_created<E: Emitter>(out: &mut E, metric: &Metric<'_>, created: &Option<Number>)
    ensures { out.new ≡ fold E.push out.old
        (samples_text (number_sample (metric.now.family.now ++ codes "_created") metric.now.labels.now created.now)) }
{
    emit_option(out, &metric.name(Suffix::Created), metric.labels, created);
}

/// Emits the samples of a summary.
fn emit_summary<E: Emitter>(
    out: &mut E,
    metric: &Metric<'_>,
    quantiles: &List<Quantile>,
    count: Option<u64>,
    sum: &Option<Number>,
)
    ensures { out.new ≡ fold E.push out.old
        (value_text metric.now.kind metric.now.family.now metric.now.labels.now (values.Quantiles quantiles.now count sum.now)) }
{
    emit_quantiles(out, metric, quantiles);
    emit_count(out, metric, count);
    emit_sum(out, metric, sum);
}

/// Emits the one sample of a reading.
fn emit_plain<E: Emitter>(out: &mut E, metric: &Metric<'_>, number: &Number)
    ensures { out.new ≡ fold E.push out.old
        (value_text metric.now.kind metric.now.family.now metric.now.labels.now (values.Plain number.now)) }
{
    emit_sample(
        out,
        &metric.name(own_suffix(metric.kind)),
        metric.labels,
        number,
    );
}

/// Emits the samples of a value.
fn emit_value<E: Emitter>(out: &mut E, metric: &Metric<'_>, value: &Value)
    ensures { out.new ≡ fold E.push out.old
        (value_text metric.now.kind metric.now.family.now metric.now.labels.now value.now) }
{
    match value {
        Value::Plain(number) => emit_plain(out, metric, number),
        Value::Buckets { buckets, sum } => emit_histogram(out, metric, buckets, sum),
        Value::Quantiles { list, count, sum } => emit_summary(out, metric, list, *count, sum),
    }
}

/// Emits the samples of a reading, in a family of this kind and name.
pub(crate) fn emit_reading<E: Emitter>(out: &mut E, kind: Kind, family: &Name, reading: &Reading)
    ensures { out.new ≡ fold E.push out.old (samples_text (reading_samples kind family.now reading.now)) }
{
    let metric = Metric {
        kind,
        family,
        labels: &reading.key.labels,
    };
    emit_value(out, &metric, &reading.value);
    emit_created(out, &metric, &reading.created);
}
