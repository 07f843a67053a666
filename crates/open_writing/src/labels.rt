//! Labels in braces (OpenMetrics 1.0, "ABNF", labels).

ghost use Rattle.std.specs.Prelude.{◌≡◌, ◌≤◌, fold, length, not};
ghost use Rattle.std.specs.List.{flat_map, prefix_len};
ghost use Rattle.label_sets.specs.Labels.{name_before};
ghost use Rattle.exact_decimal.specs.Literals.{number_text};
ghost use Rattle.open_writing.specs.Pieces.{IsLabelPlace, filled_gap, label_then_comma, label_with, labels_then_space, next_unclosed, unclosed_label};

use crate::strings::emit_escaped;
use exact_decimal::{Buffer, Number};
use label_sets::Label;
use text_emitter::Emitter;

/// Emits a name and a value as a label without its last quote.
#[inline(always)]
#[tactic(auto, unfolding(crate::specs::Pieces::unclosed_label))]
fn emit_pair<E: Emitter>(out: &mut E, name: &[u8], value: &[u8])
    ensures { out.new ≡ fold E.push out.old (unclosed_label (label_with name.now value.now)) }
{
    out.put(name);
    out.put(b"=\"");
    emit_escaped(out, value);
}

/// Emits a label without its last quote.
#[inline(always)]
fn emit_label<E: Emitter>(out: &mut E, label: &Label)
    ensures { out.new ≡ fold E.push out.old (unclosed_label label.now) }
{
    emit_pair(out, label.name.as_bytes(), label.value.as_bytes());
}

/// Emits a label whose value is a number, without its last quote.
fn emit_number_label<E: Emitter>(out: &mut E, name: &[u8], number: &Number)
    ensures { out.new ≡ fold E.push out.old (unclosed_label (label_with name.now (number_text number.now))) }
{
    let mut literal = Buffer::new();
    exact_decimal::print_open(number, &mut literal);
    emit_pair(out, name, literal.bytes());
}

/// Emits labels that stand in front of another.
#[tactic(auto, unfolding(crate::specs::Pieces::label_then_comma))]
fn emit_front<E: Emitter>(out: &mut E, labels: &[Label])
    ensures { out.new ≡ fold E.push out.old (flat_map label_then_comma labels.now) }
{
    for label in labels {
        emit_label(out, label);
        out.put(b"\",");
    }
}

/// Emits labels that stand behind another, from its last quote to theirs, which is left to the caller.
#[tactic(auto, unfolding(crate::specs::Pieces::next_unclosed))]
fn emit_behind<E: Emitter>(out: &mut E, labels: &[Label])
    ensures { out.new ≡ fold E.push out.old (flat_map next_unclosed labels.now) }
{
    for label in labels {
        out.put(b"\",");
        emit_label(out, label);
    }
}

/// Emits labels in braces, unless there are none, and a space.
pub(crate) fn emit_labels<E: Emitter>(out: &mut E, labels: &[Label])
    ensures { out.new ≡ fold E.push out.old (labels_then_space labels.now) }
{
    let [first, rest @ ..] = labels else {
        out.put(b" ");
        return;
    };
    out.put(b"{");
    emit_label(out, first);
    emit_behind(out, rest);
    out.put(b"\"} ");
}

/// The place among labels that one more has by its name.
#[derive(Clone, Copy)]
pub(crate) struct Gap<'a> {
    front: &'a [Label],
    name: &'static [u8],
    back: &'a [Label],
}

/// Whether the first name stands before the second in byte order.
fn is_before(first: &[u8], second: &[u8]) -> bool
    ensures { result ≡ name_before first.now second.now }
{
    first.cmp(second).is_lt()
}

/// How many labels don't stand behind one of this name.
fn front_len(labels: &[Label], name: &[u8]) -> usize
    ensures within { result ≤ length labels.now }
    ensures is { result ≡ prefix_len (λ (label : _). not (name_before name.now label.name)) labels.now }
{
    let mut count = 0;
    while count < labels.len() && !is_before(name, labels[count].name.as_bytes()) {
        count += 1;
    }
    count
}

impl<'a> Gap<'a> {
    /// The place of a label of this name.
    pub(crate) fn new(labels: &'a [Label], name: &'static [u8]) -> Gap<'a>
        ensures name { result.name.now ≡ name.now }
        ensures gap { IsLabelPlace labels.now name.now result.front.now result.back.now }
    {
        let (front, back) = labels.split_at(front_len(labels, name));
        Gap { front, name, back }
    }

    /// Emits the labels in braces, with one more in its place, whose value is a number, and a space.
    pub(crate) fn emit<E: Emitter>(&self, out: &mut E, number: &Number)
        ensures { out.new ≡ fold E.push out.old (labels_then_space (filled_gap self.now number.now)) }
    {
        out.put(b"{");
        emit_front(out, self.front);
        emit_number_label(out, self.name, number);
        emit_behind(out, self.back);
        out.put(b"\"} ");
    }
}
