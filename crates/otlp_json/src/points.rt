//! Points of any kind, and those of numbers.

ghost use Rattle.std.specs.Prelude.{◌≡◌, fold};
ghost use Rattle.otlp_json.specs.Pieces.{each_behind_comma, each_before_comma, open_point, point_front};
ghost use Rattle.otlp_json.specs.Texts.{attributes_member, number_members, number_point_text, start_member, value_members};

use crate::exemplars::emit_exemplars;
use crate::json::{Json, emit_member};
use exact_decimal::Number;
use label_sets::LabelSet;
use otlp_tree::NumberPoint;
use text_emitter::Emitter;

/// A value of a point, with its members.
pub(crate) trait PointValue {
    ghost use Rattle.std.specs.Prelude as spec;

    /// The members.
    ghost members: { Self → spec.List (spec.List spec.ℕ) };

    /// Emits each member behind a comma.
    fn emit_members<E: Emitter>(&self, out: &mut E)
        ensures { out.new ≡ fold E.push out.old (each_behind_comma (members self.now)) };
}

/// Emits a point's attributes with the comma behind them.
#[tactic(auto, unfolding(crate::specs::Texts::attributes_member))]
fn emit_attributes<E: Emitter>(out: &mut E, labels: &LabelSet)
    ensures { out.new ≡ fold E.push out.old (each_before_comma (attributes_member labels.now)) }
{
    if labels.labels().is_empty() {
        return;
    }
    out.put(b"\"attributes\":");
    labels.emit(out);
    out.put(b",");
}

/// Emits a point's start with the comma behind it.
#[tactic(auto, unfolding(crate::specs::Texts::start_member))]
fn emit_start<E: Emitter>(out: &mut E, start: Option<u64>)
    ensures { out.new ≡ fold E.push out.old (each_before_comma (start_member start)) }
{
    if let Some(start) = start {
        out.put(b"\"startTimeUnixNano\":");
        start.emit(out);
        out.put(b",");
    }
}

/// Emits a point from its first member up to its time.
#[tactic(auto, unfolding(crate::specs::Pieces::point_front))]
fn emit_front<E: Emitter>(out: &mut E, labels: &LabelSet, start: Option<u64>, time: u64)
    ensures { out.new ≡ fold E.push out.old (point_front labels.now start time) }
{
    emit_attributes(out, labels);
    emit_start(out, start);
    out.put(b"\"timeUnixNano\":");
    time.emit(out);
}

/// Emits the members of a point's value, or the flag, each behind a comma.
fn emit_value<V: PointValue, E: Emitter>(out: &mut E, value: &Option<V>)
    ensures { out.new ≡ fold E.push out.old (each_behind_comma (value_members V.members value.now)) }
{
    match value {
        Some(value) => value.emit_members(out),
        None => out.put(b",\"flags\":1"),
    }
}

/// Emits a point up to its value.
pub(crate) fn emit_open_point<V: PointValue, E: Emitter>(
    out: &mut E,
    labels: &LabelSet,
    start: Option<u64>,
    time: u64,
    value: &Option<V>,
)
    ensures { out.new ≡ fold E.push out.old (open_point V.members labels.now start time value.now) }
{
    out.put(b"{");
    emit_front(out, labels, start, time);
    emit_value(out, value);
}

impl PointValue for Number {
    ghost members = { number_members };

    #[tactic(auto, unfolding(crate::specs::Texts::number_members))]
    fn emit_members<E: Emitter>(&self, out: &mut E) {
        emit_member(out, b",\"asDouble\":", self);
    }
}

impl Json for NumberPoint {
    ghost text = { number_point_text };

    fn emit<E: Emitter>(&self, out: &mut E) {
        emit_open_point(out, &self.labels, self.start, self.time, &self.value);
        emit_exemplars(out, &self.exemplars);
        out.put(b"}");
    }
}
