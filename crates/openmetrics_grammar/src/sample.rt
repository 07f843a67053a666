//! Sample lines (OpenMetrics 1.0, "ABNF": sample).
ghost use Rattle.std.specs.Prelude.{◌≡◌, ◌&&◌, IfOk, IsUtf8, MatchOption, Option, None, Some};
ghost use Rattle.page_model.specs.declared.format.Format.TheVariants.{OpenMetrics};
ghost use Rattle.page_model.specs.OpenReading.{sample_of};
ghost use Rattle.page_model.specs.Written.{WrittenExemplar, WrittenSample, sample};
ghost use Rattle.line_scan.specs.LineReading.{Reads};
ghost use Rattle.line_scan.specs.LineRooms.{HasReadHead};
ghost use Rattle.openmetrics_grammar.specs.Samples.{IsSampleOf, IsSampleIn, IsMaybeExemplarOf, maybe_in_range, exemplar_made};

use crate::exemplar::{ExemplarRead, exemplar_of};
use crate::labels::OptionalList;
use crate::numbers::{StampAt, ValueAt, are_in_range, stamp_at, value_at};
use exact_decimal::Number;
use label_sets::{Memory, Name};
use line_scan::{Head, LineRead, LineRoom, head_at, set_of};
use page_model::{Exemplar, Format, Item, Rule, Sample, Treatment};
use std::alloc::Global;

/// A sample as it is written, its numbers read. Its labels stand in the room of the line.
#[derive(Drop)]
pub(crate) struct SampleRead<'a> {
    head: Head<'a>,
    value: Number,
    stamp: Option<Number>,
    exemplar: Option<ExemplarRead>,
    /// Whether each number of the line is in range.
    in_range: bool,
}

/// Whether each number of a line is in range.
fn line_in_range(value: &ValueAt<'_>, stamp: &StampAt<'_>, exemplar: &Option<ExemplarRead>) -> bool
    ensures { result ≡ (value.now.in_range && stamp.now.in_range && maybe_in_range exemplar.now) }
{
    match exemplar {
        Some(exemplar) => are_in_range(value, stamp) && exemplar.in_range,
        None => are_in_range(value, stamp),
    }
}

/// The parts of a sample line, whose labels are read into the room.
pub(crate) fn sample_of<'a>(
    alloc: Global,
    bytes: &'a [u8],
    room: &mut LineRoom,
) -> Result<Option<SampleRead<'a>>, Memory>
    requires { IsUtf8 bytes.now }
    ensures { IfOk result (λ read. MatchOption read (sample_of bytes.now ≡ None) (IsSampleIn (sample_of bytes.now) room.new)) }
{
    let Some(head) = head_at::<OptionalList>(alloc, bytes, room)? else {
        return Ok(None);
    };
    let Some(value) = value_at(head.rest) else {
        return Ok(None);
    };
    let Some(stamp) = stamp_at(value.rest) else {
        return Ok(None);
    };
    let Some(exemplar) = exemplar_of(alloc, stamp.rest)? else {
        return Ok(None);
    };
    let in_range = line_in_range(&value, &stamp, &exemplar);
    Ok(Some(SampleRead {
        head,
        value: value.value,
        stamp: stamp.stamp,
        exemplar,
        in_range,
    }))
}

/// The exemplar of a sample, or that there is none; nothing where its labels break a rule.
fn made_exemplar(
    alloc: Global,
    treatment: Treatment,
    exemplar: Option<ExemplarRead>,
) -> Result<Option<Option<Exemplar>>, Memory>
    ensures { (written : Option WrittenExemplar) → IsMaybeExemplarOf written exemplar → IfOk result (λ made. made ≡ exemplar_made treatment written) }
{
    let Some(read) = exemplar else {
        return Ok(Some(None));
    };
    let Some(labels) = set_of(alloc, treatment, read.labels)? else {
        return Ok(None);
    };
    Ok(Some(Some(Exemplar {
        labels,
        value: read.value,
        stamp: read.stamp,
    })))
}

/// The item of a sample, whose labels were read into the room. It is refused where a number is out of range, else
/// where the labels or those of the exemplar break a rule.
pub(crate) fn made_sample(
    alloc: Global,
    treatment: Treatment,
    read: SampleRead<'_>,
    room: &mut LineRoom,
) -> Result<LineRead, Memory>
    requires name { IsUtf8 read.head.name.now }
    requires labels { HasReadHead OpenMetrics room.old read.head }
    ensures { (written : WrittenSample) → IsSampleOf written room.old read.entry → IfOk result (Reads OpenMetrics treatment (Some (sample written))) }
{
    if !read.in_range {
        return Ok(LineRead::Refused(Rule::Range));
    }
    let Some(labels) = room.take_set(alloc, treatment, Format::OpenMetrics, read.head)? else {
        return Ok(LineRead::Refused(Rule::Labels));
    };
    let Some(exemplar) = made_exemplar(alloc, treatment, read.exemplar)? else {
        return Ok(LineRead::Refused(Rule::Labels));
    };
    let name = Name::from_utf8(alloc, read.head.name)?;
    Ok(LineRead::Item(Item::Sample(Sample {
        name,
        labels,
        value: read.value,
        stamp: read.stamp,
        exemplar,
    })))
}
