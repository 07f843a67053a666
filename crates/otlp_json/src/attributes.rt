//! Attributes of resources, and labels.

ghost use Rattle.std.specs.Prelude.{◌≡◌, fold, map};
ghost use Rattle.std.specs.List.{flat_map};
ghost use Rattle.otlp_json.specs.Json.{json_array};
ghost use Rattle.otlp_json.specs.Pieces.{next_label, open_label};
ghost use Rattle.otlp_json.specs.Texts.{attribute_text, attribute_value_text, label_text};

use crate::json::{Json, emit_between, emit_pair};
use crate::strings::emit_content;
use label_sets::{Label, LabelSet};
use otlp_tree::{Attribute, AttributeValue};
use text_emitter::Emitter;

impl Json for AttributeValue {
    ghost text = { attribute_value_text };

    #[tactic(auto, unfolding(crate::specs::Texts::attribute_value_text))]
    fn emit<E: Emitter>(&self, out: &mut E) {
        match self {
            AttributeValue::Str(text) => emit_between(out, b"{\"stringValue\":", text, b"}"),
            AttributeValue::Int(n) => emit_between(out, b"{\"intValue\":", n, b"}"),
        }
    }
}

impl Json for Attribute {
    ghost text = { attribute_text };

    #[tactic(auto, unfolding(crate::specs::Texts::attribute_text))]
    fn emit<E: Emitter>(&self, out: &mut E) {
        emit_pair(out, b"\"key\":", &self.key, b"\"value\":", &self.value);
    }
}

/// Emits a label from the front of its name to the end of its value.
#[inline(always)]
fn emit_label<E: Emitter>(out: &mut E, label: &Label)
    ensures { out.new ≡ fold E.push out.old (open_label label.now) }
{
    emit_content(out, label.name.as_bytes());
    out.put(b"\",\"value\":{\"stringValue\":\"");
    emit_content(out, label.value.as_bytes());
}

/// Emits a label behind another one, from the end of the value of that.
#[inline(always)]
fn emit_next_label<E: Emitter>(out: &mut E, label: &Label)
    ensures { out.new ≡ fold E.push out.old (next_label label.now) }
{
    // Labels are most of a request, so what stands between their texts is put at once.
    out.put(b"\"}},{\"key\":\"");
    emit_label(out, label);
}

/// Emits the labels behind the first.
#[inline(always)]
fn emit_next_labels<E: Emitter>(out: &mut E, labels: &[Label])
    ensures { out.new ≡ fold E.push out.old (flat_map next_label labels.now) }
{
    for label in labels {
        emit_next_label(out, label);
    }
}

impl Json for LabelSet {
    ghost text = { λ labels. json_array (map label_text labels) };

    #[tactic(auto, unfolding(crate::specs::Json::json_array))]
    #[inline(always)]
    fn emit<E: Emitter>(&self, out: &mut E) {
        let [first, rest @ ..] = self.labels() else {
            return out.put(b"[]");
        };
        out.put(b"[{\"key\":\"");
        emit_label(out, first);
        emit_next_labels(out, rest);
        out.put(b"\"}}]");
    }
}
