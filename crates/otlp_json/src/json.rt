//! Parts with a JSON text, and arrays of them.

ghost use Rattle.std.specs.Prelude.{◌≡◌, ◌++◌, codes, fold, map};
ghost use Rattle.std.specs.List.{flat_map};
ghost use Rattle.otlp_json.specs.Pieces.{next_text};
ghost use Rattle.otlp_json.specs.Json.{json_array};

use label_sets::List;
use text_emitter::Emitter;

/// A part of a request with its JSON text.
pub(crate) trait Json {
    ghost use Rattle.std.specs.Prelude as spec;

    /// The text.
    ghost text: { Self → spec.List spec.ℕ };

    /// Emits the text.
    fn emit<E: Emitter>(&self, out: &mut E)
        ensures { out.new ≡ fold E.push out.old (text self.now) };
}

/// Emits a text between two others.
pub(crate) fn emit_between<T: Json, E: Emitter>(out: &mut E, front: &[u8], inner: &T, end: &[u8])
    ensures { out.new ≡ fold E.push out.old (front.now ++ T.text inner.now ++ end.now) }
{
    out.put(front);
    inner.emit(out);
    out.put(end);
}

/// Emits a member: its key, with what stands around it, and its value.
pub(crate) fn emit_member<T: Json, E: Emitter>(out: &mut E, key: &[u8], value: &T)
    ensures { out.new ≡ fold E.push out.old (key.now ++ T.text value.now) }
{
    out.put(key);
    value.emit(out);
}

/// Emits an object of two members, each a quoted key with its colon and its value.
pub(crate) fn emit_pair<A: Json, B: Json, E: Emitter>(
    out: &mut E,
    key: &[u8],
    first: &A,
    next_key: &[u8],
    second: &B,
)
    ensures { out.new ≡ fold E.push out.old
        (codes "{" ++ key.now ++ A.text first.now ++ codes "," ++ next_key.now ++ B.text second.now ++ codes "}") }
{
    out.put(b"{");
    emit_member(out, key, first);
    out.put(b",");
    emit_member(out, next_key, second);
    out.put(b"}");
}

/// Emits the elements behind the first.
#[tactic(auto, unfolding(crate::specs::Pieces::next_text))]
fn emit_rest<T: Json, E: Emitter>(out: &mut E, items: &[T])
    ensures { out.new ≡ fold E.push out.old (flat_map (next_text T.text) items.now) }
{
    for item in items {
        out.put(b",");
        item.emit(out);
    }
}

/// Emits an array.
#[tactic(auto, unfolding(crate::specs::Json::json_array))]
pub(crate) fn emit_array<T: Json, E: Emitter>(out: &mut E, items: &[T])
    ensures { out.new ≡ fold E.push out.old (json_array (map T.text items.now)) }
{
    let [first, rest @ ..] = items else {
        return out.put(b"[]");
    };
    out.put(b"[");
    first.emit(out);
    emit_rest(out, rest);
    out.put(b"]");
}

impl<T: Json> Json for List<T> {
    ghost text = { λ items. json_array (map T.text items) };

    fn emit<E: Emitter>(&self, out: &mut E) {
        emit_array(out, self.as_slice());
    }
}
