//! Exemplars.

ghost use Rattle.std.specs.Prelude.{◌≡◌, ◌++◌, codes, fold, map};
ghost use Rattle.otlp_json.specs.Json.{json_array};
ghost use Rattle.otlp_json.specs.Pieces.{each_behind_comma, each_before_comma};
ghost use Rattle.otlp_json.specs.Texts.{exemplars_member, filtered_member, id_member, shot_text};

use crate::hex::hex_digits;
use crate::json::{Json, emit_member};
use label_sets::{LabelSet, List};
use otlp_tree::Shot;
use text_emitter::Emitter;

/// Emits the attributes of an exemplar with the comma behind them.
#[tactic(auto, unfolding(crate::specs::Texts::filtered_member))]
fn emit_filtered<E: Emitter>(out: &mut E, labels: &LabelSet)
    ensures { out.new ≡ fold E.push out.old (each_before_comma (filtered_member labels.now)) }
{
    if labels.labels().is_empty() {
        return;
    }
    out.put(b"\"filteredAttributes\":");
    labels.emit(out);
    out.put(b",");
}

/// Emits the id of a span behind a comma, where there is one.
#[tactic(auto, unfolding(crate::specs::Texts::id_member))]
fn emit_span<E: Emitter>(out: &mut E, span: Option<u64>)
    ensures { out.new ≡ fold E.push out.old (each_behind_comma (id_member (codes "spanId") 16 span)) }
{
    if let Some(id) = span {
        out.put(b",\"spanId\":\"");
        out.put(&hex_digits::<16>(u128::from(id)));
        out.put(b"\"");
    }
}

/// Emits the id of a trace behind a comma, where there is one.
#[tactic(auto, unfolding(crate::specs::Texts::id_member))]
fn emit_trace<E: Emitter>(out: &mut E, trace: Option<u128>)
    ensures { out.new ≡ fold E.push out.old (each_behind_comma (id_member (codes "traceId") 32 trace)) }
{
    if let Some(id) = trace {
        out.put(b",\"traceId\":\"");
        out.put(&hex_digits::<32>(id));
        out.put(b"\"");
    }
}

impl Json for Shot {
    ghost text = { shot_text };

    fn emit<E: Emitter>(&self, out: &mut E) {
        out.put(b"{");
        emit_filtered(out, &self.attributes);
        emit_member(out, b"\"timeUnixNano\":", &self.time);
        emit_member(out, b",\"asDouble\":", &self.value);
        emit_span(out, self.span);
        emit_trace(out, self.trace);
        out.put(b"}");
    }
}

/// Emits the member with exemplars behind a comma.
#[cold]
fn emit_shots<E: Emitter>(out: &mut E, shots: &List<Shot>)
    ensures { out.new ≡ fold E.push out.old (codes ",\"exemplars\":" ++ json_array (map shot_text shots.now)) }
{
    emit_member(out, b",\"exemplars\":", shots);
}

/// Emits the exemplars of a point behind a comma, where it has some.
#[tactic(auto, unfolding(crate::specs::Texts::exemplars_member))]
#[inline(always)]
pub(crate) fn emit_exemplars<E: Emitter>(out: &mut E, shots: &List<Shot>)
    ensures { out.new ≡ fold E.push out.old (each_behind_comma (exemplars_member shots.now)) }
{
    // Few points have any: the others pay for this test alone.
    if shots.is_empty() {
        return;
    }
    emit_shots(out, shots);
}
