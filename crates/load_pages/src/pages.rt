//! The page of a target in a round (OpenMetrics 1.0, "Text Format").
ghost use Rattle.std.specs.Prelude.{◌≡◌, ◌<◌, ◌++◌, IfOk, OnOk};
ghost use Rattle.std.specs.Fmt.{decimal};
ghost use Rattle.load_pages.specs.GeneratedPages as spec;
ghost use Rattle.load_pages.specs.GeneratedScripts.{IsLoadVisit, most_load_rounds};

use label_sets::Memory;
use std::alloc::Global;

/// How many series the counter may have.
const MOST_SERIES: u64 = 50;

/// About how many bytes a page has: room for them spares most of its growth.
const PAGE_BYTES: usize = 2_400;

/// Puts a number in decimal digits behind a text.
fn push_digits(text: &mut Vec<u8>, number: u64) -> Result<(), Memory>
    ensures { OnOk result (text.new.items ≡ text.old.items ++ decimal number) }
{
    let mut digits = itoa::Buffer::new();
    text.extend_from_slice(digits.format(number).as_bytes())
}

/// Puts what stands behind the name of a line: a number.
#[tactic(auto, unfolding(crate::specs::GeneratedPages::load_value))]
fn push_value(text: &mut Vec<u8>, value: u64) -> Result<(), Memory>
    ensures { OnOk result (text.new.items ≡ text.old.items ++ spec.load_value value) }
{
    text.extend_from_slice(b" ")?;
    push_digits(text, value)?;
    text.extend_from_slice(b"\n")
}

/// Puts a line: a name with its labels, and a number.
#[tactic(auto, unfolding(crate::specs::GeneratedPages::load_line))]
fn push_sample(text: &mut Vec<u8>, name: &[u8], value: u64) -> Result<(), Memory>
    ensures { OnOk result (text.new.items ≡ text.old.items ++ spec.load_line name.now value) }
{
    text.extend_from_slice(name)?;
    push_value(text, value)
}

/// Puts the name of a series.
fn push_name(text: &mut Vec<u8>, series: u64) -> Result<(), Memory>
    ensures { OnOk result (text.new.items ≡ text.old.items ++ spec.series_name series) }
{
    text.extend_from_slice(b"load_requests_total{series=\"")?;
    push_digits(text, series)?;
    text.extend_from_slice(b"\"}")
}

/// Puts the line of a series.
#[tactic(auto, unfolding(crate::specs::GeneratedPages::series_line))]
fn push_series(text: &mut Vec<u8>, round: u64, series: u64) -> Result<(), Memory>
    requires round { round < most_load_rounds }
    requires series { series < spec.most_series }
    ensures { OnOk result (text.new.items ≡ text.old.items ++ spec.series_line round series) }
{
    push_name(text, series)?;
    push_value(text, (round % (5 + series % 7)) * (series + 1))
}

/// Puts the line of a series, where the page has it: one in ten is missing.
#[tactic(auto, unfolding(crate::specs::GeneratedPages::series_text))]
fn push_series_had(
    text: &mut Vec<u8>,
    number: u64,
    target: u64,
    round: u64,
    series: u64,
) -> Result<(), Memory>
    requires visit { IsLoadVisit number target round }
    requires series { series < spec.most_series }
    ensures { OnOk result (text.new.items ≡ text.old.items ++ spec.series_text number target round series) }
{
    if (number + target + round + series) % 10 == 0 {
        return Ok(());
    }
    push_series(text, round, series)
}

/// Puts the lines of all series that the page has.
fn push_all_series(text: &mut Vec<u8>, number: u64, target: u64, round: u64) -> Result<(), Memory>
    requires { IsLoadVisit number target round }
    ensures { OnOk result (text.new.items ≡ text.old.items ++ spec.series_texts number target round spec.most_series) }
{
    let mut series = 0u64;
    while series < MOST_SERIES {
        push_series_had(text, number, target, round, series)?;
        series += 1;
    }
    Ok(())
}

/// Puts the counter.
fn push_counter(text: &mut Vec<u8>, number: u64, target: u64, round: u64) -> Result<(), Memory>
    requires { IsLoadVisit number target round }
    ensures { OnOk result (text.new.items ≡ text.old.items ++ spec.counter_text number target round) }
{
    text.extend_from_slice(b"# TYPE load_requests counter\n")?;
    push_all_series(text, number, target, round)
}

/// Puts the gauge.
fn push_gauge(text: &mut Vec<u8>, number: u64, target: u64, round: u64) -> Result<(), Memory>
    requires { IsLoadVisit number target round }
    ensures { OnOk result (text.new.items ≡ text.old.items ++ spec.gauge_text number target round) }
{
    text.extend_from_slice(b"# TYPE load_level gauge\n")?;
    push_sample(text, b"load_level", (number + target * round) % 1_000)
}

/// Puts the buckets of the histogram.
#[tactic(auto, unfolding(crate::specs::GeneratedPages::load_buckets))]
fn push_buckets(text: &mut Vec<u8>, round: u64) -> Result<(), Memory>
    requires { round < most_load_rounds }
    ensures { OnOk result (text.new.items ≡ text.old.items ++ spec.load_buckets round) }
{
    push_sample(text, b"load_seconds_bucket{le=\"0.1\"}", round)?;
    push_sample(text, b"load_seconds_bucket{le=\"1\"}", 2 * round)?;
    push_sample(text, b"load_seconds_bucket{le=\"+Inf\"}", 3 * round)
}

/// Puts its count and its sum.
#[tactic(auto, unfolding(crate::specs::GeneratedPages::totals_text))]
fn push_totals(text: &mut Vec<u8>, round: u64) -> Result<(), Memory>
    requires { round < most_load_rounds }
    ensures { OnOk result (text.new.items ≡ text.old.items ++ spec.totals_text round) }
{
    push_sample(text, b"load_seconds_count", 3 * round)?;
    push_sample(text, b"load_seconds_sum", 3 * round)
}

/// Puts the histogram.
fn push_histogram(text: &mut Vec<u8>, round: u64) -> Result<(), Memory>
    requires { round < most_load_rounds }
    ensures { OnOk result (text.new.items ≡ text.old.items ++ spec.histogram_text round) }
{
    text.extend_from_slice(b"# TYPE load_seconds histogram\n")?;
    push_buckets(text, round)?;
    push_totals(text, round)
}

/// The page of a target, numbered from 1, in a round, numbered from 0.
#[tactic(auto, unfolding(crate::specs::GeneratedPages::generated_text))]
pub(crate) fn page(alloc: Global, number: u64, target: u64, round: u64) -> Result<Vec<u8>, Memory>
    requires { IsLoadVisit number target round }
    ensures { IfOk result (λ text. text.items ≡ spec.generated_text number target round) }
{
    let mut text = Vec::with_capacity(alloc, PAGE_BYTES)?;
    push_counter(&mut text, number, target, round)?;
    push_gauge(&mut text, number, target, round)?;
    push_histogram(&mut text, round)?;
    text.extend_from_slice(b"# EOF\n")?;
    Ok(text)
}
