//! What a line says (Prometheus text format 0.0.4, "Text format details").
ghost use Rattle.std.specs.Prelude.{◌≡◌, ◌≤◌, ◌&&◌, ℕ, List, [], length, option_map, IfOk, IfSome, IsUtf8, MatchOption, true, false, None, Some, if◌then◌else◌};
ghost use Rattle.std.specs.Option.{option_copied};
ghost use Rattle.std.specs.Str.{bytes_eq};
ghost use Rattle.page_model.specs.TextItems.{is_integer_token};
ghost use Rattle.page_model.specs.TextReading.{kind_named, marked_of, named_at, sample_of};
ghost use Rattle.page_model.specs.declared.format.Format.TheVariants.{Text};
ghost use Rattle.page_model.specs.declared.format.Treatment.{Treatment as AnyTreatment};
ghost use Rattle.label_sets.specs.declared.label.Label.{Label as AnyLabel};
ghost use Rattle.line_scan.specs.LineReading.{Reads};
ghost use Rattle.line_scan.specs.LineRooms.{HasLabels, HasReadHead};
ghost use Rattle.text_grammar.specs.LineReading.{IsNamedAt, Makes, help_of, type_of, valued_sample};

use crate::blanks::{NotBlank, at_blank, trimmed, without_leading_blanks};
use crate::labels::BlankedList;
use crate::stamp::{optional_number, stamp_of};
use exact_decimal::{Number, NumberFault};
use label_sets::{Kind, Memory, Name};
use line_scan::{
    Cut, Escapes, Head, LineRead, LineRoom, MetricChar, behind, cut_chars, cut_name, has_backslash,
    head_at, is_word, unescaped_text,
};
use page_feeding::Grammar;
use page_model::{Format, Item, Rule, Sample, Treatment};
use std::alloc::Global;

/// The metric name behind the word of a descriptor, and what stands behind the blanks that follow it.
fn named_at(bytes: &[u8]) -> Option<Cut<'_>>
    ensures { MatchOption result (named_at bytes.now ≡ None) (IsNamedAt bytes.now) }
{
    let Some(cut) = cut_name::<MetricChar>(without_leading_blanks(bytes)) else {
        return None;
    };
    if !at_blank(cut.rest) {
        return None;
    }
    Some(Cut {
        front: cut.front,
        rest: without_leading_blanks(cut.rest),
    })
}

/// The kind of a word.
#[tactic(auto, unfolding(page_model::specs::TextReading::kind_named))]
fn kind_named(word: &[u8]) -> Option<Kind>
    ensures { result ≡ kind_named word.now }
{
    if is_word(word, "counter") {
        return Some(Kind::Counter);
    }
    if is_word(word, "gauge") {
        return Some(Kind::Gauge);
    }
    if is_word(word, "histogram") {
        return Some(Kind::Histogram);
    }
    if is_word(word, "summary") {
        return Some(Kind::Summary);
    }
    if is_word(word, "untyped") {
        return Some(Kind::Unknown);
    }
    None
}

/// A HELP line, from behind its word.
fn help_line(alloc: Global, bytes: &[u8]) -> Result<LineRead, Memory>
    requires { IsUtf8 bytes.now }
    ensures { (t : AnyTreatment) → IfOk result (Reads Text t (help_of bytes.now)) }
{
    let Some(cut) = named_at(bytes) else {
        return Ok(LineRead::Refused(Rule::Syntax));
    };
    let name = Name::from_utf8(alloc, cut.front)?;
    let text = unescaped_text(alloc, Escapes::Help, cut.rest, has_backslash(cut.rest))?;
    Ok(LineRead::Item(Item::Help { name, text }))
}

/// A TYPE line, from behind its word.
fn type_line(alloc: Global, bytes: &[u8]) -> Result<LineRead, Memory>
    ensures { (t : AnyTreatment) → IfOk result (Reads Text t (type_of bytes.now)) }
{
    let Some(cut) = named_at(bytes) else {
        return Ok(LineRead::Refused(Rule::Syntax));
    };
    let Some(kind) = kind_named(cut.rest) else {
        return Ok(LineRead::Refused(Rule::Syntax));
    };
    let name = Name::from_utf8(alloc, cut.front)?;
    Ok(LineRead::Item(Item::KindOf { name, kind }))
}

/// A line that begins with `#`, from behind that.
fn marked_line(alloc: Global, bytes: &[u8]) -> Result<LineRead, Memory>
    requires { IsUtf8 bytes.now }
    ensures { (t : AnyTreatment) → IfOk result (Reads Text t (marked_of bytes.now)) }
{
    let word = cut_chars::<NotBlank>(without_leading_blanks(bytes));
    if is_word(word.front, "HELP") {
        return help_line(alloc, word.rest);
    }
    if is_word(word.front, "TYPE") {
        return type_line(alloc, word.rest);
    }
    Ok(LineRead::Item(Item::Comment))
}

/// The sample of a head, whose labels were read into the room, and numbers. The labels are refused where two have one
/// name or there are too many.
#[inline(always)]
fn made_sample(
    alloc: Global,
    treatment: Treatment,
    head: Head<'_>,
    room: &mut LineRoom,
    value: Number,
    stamp: Option<Number>,
) -> Result<LineRead, Memory>
    requires name { IsUtf8 head.name.now }
    requires labels { HasReadHead Text room.old head }
    ensures { (labels : List AnyLabel) → HasLabels room.old labels → IfOk result (Makes treatment head.entry.name.now labels value stamp) }
{
    let Some(labels) = room.take_set(alloc, treatment, Format::Text, head)? else {
        return Ok(LineRead::Refused(Rule::Labels));
    };
    let name = Name::from_utf8(alloc, head.name)?;
    Ok(LineRead::Item(Item::Sample(Sample {
        name,
        labels,
        value,
        stamp,
        exemplar: None,
    })))
}

/// The sample of a head, whose labels were read into the room, and two tokens: first it is refused where the value is no
/// number, then where one of them is out of range, then by its labels.
#[inline(always)]
fn read_sample(
    alloc: Global,
    treatment: Treatment,
    head: Head<'_>,
    room: &mut LineRoom,
    value: &[u8],
    stamp: Option<&[u8]>,
) -> Result<LineRead, Memory>
    requires name { IsUtf8 head.name.now }
    requires labels { HasReadHead Text room.old head }
    requires stamp { IfSome stamp (λ token. is_integer_token token.now ≡ true) }
    ensures { (labels : List AnyLabel) → HasLabels room.old labels
        → IfOk result (Reads Text treatment (valued_sample head.entry.name.now labels value.now (option_copied stamp.entry))) }
{
    let value = match exact_decimal::read(value) {
        Ok(value) => value,
        Err(NumberFault::NotANumber) => return Ok(LineRead::Refused(Rule::Syntax)),
        Err(NumberFault::OutOfRange) => return Ok(LineRead::Refused(Rule::Range)),
    };
    let Some(stamp) = optional_number(stamp) else {
        return Ok(LineRead::Refused(Rule::Range));
    };
    made_sample(alloc, treatment, head, room, value, stamp)
}

/// A sample line.
fn sample_line(
    alloc: Global,
    treatment: Treatment,
    bytes: &[u8],
    room: &mut LineRoom,
) -> Result<LineRead, Memory>
    requires { IsUtf8 bytes.now }
    ensures { IfOk result (Reads Text treatment (sample_of bytes.now)) }
{
    let Some(head) = head_at::<BlankedList>(alloc, bytes, room)? else {
        return Ok(LineRead::Refused(Rule::Syntax));
    };
    let value = cut_chars::<NotBlank>(head.rest);
    let Some(stamp) = stamp_of(value.rest) else {
        return Ok(LineRead::Refused(Rule::Syntax));
    };
    read_sample(alloc, treatment, head, room, value.front, stamp)
}

/// The lines of the text format.
pub struct TextLines;

impl Grammar for TextLines {
    ghost format = { Text };

    fn format() -> Format {
        Format::Text
    }

    fn read_text(
        alloc: Global,
        treatment: Treatment,
        line: &[u8],
        room: &mut LineRoom,
    ) -> Result<LineRead, Memory> {
        let bare = trimmed(line);
        if bare.is_empty() {
            return Ok(LineRead::Item(Item::Blank));
        }
        match behind(b'#', bare) {
            Some(rest) => marked_line(alloc, rest),
            None => sample_line(alloc, treatment, bare, room),
        }
    }
}
