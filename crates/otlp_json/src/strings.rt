//! Strings with their escapes.

ghost use Rattle.std.specs.Prelude.{◌≡◌, ◌+◌, ◌<◌, ◌≤◌, fold, length};
ghost use Rattle.std.specs.List.{list_any, flat_map};
ghost use Rattle.otlp_json.specs.Json.{control_escape, is_escaped, json_byte, json_string};

use crate::hex::hex_digit;
use crate::json::Json;
use label_sets::{Name, Text};
use text_emitter::Emitter;

/// Whether some byte of a piece of text stands in a string by an escape.
#[inline(always)]
fn piece_has_escapes(piece: &[u8]) -> bool
    ensures { result ≡ list_any is_escaped piece.now }
{
    // There is no branch on a byte, so that many are tested at once.
    let mut any = false;
    for b in piece {
        any |= (*b < 0x20) | (*b == b'"') | (*b == b'\\');
    }
    any
}

/// The same for a text, by a piece at its front and one at its end, which may overlap.
#[inline(always)]
fn ends_have_escapes(text: &[u8], front: usize, end: usize) -> bool
    requires front { front ≤ length text.now }
    requires end { end ≤ length text.now }
    requires whole { length text.now ≤ front + end }
    ensures { result ≡ list_any is_escaped text.now }
{
    piece_has_escapes(&text[..front]) | piece_has_escapes(&text[text.len() - end..])
}

/// Whether some byte of a text stands in a string by an escape.
///
/// Most texts are short. A piece of a fixed size is tested at once, and two of them that overlap leave
/// no byte to be tested alone.
#[inline(always)]
fn has_escapes(text: &[u8]) -> bool
    ensures { result ≡ list_any is_escaped text.now }
{
    match text.len() {
        0..=3 => piece_has_escapes(text),
        4..=7 => ends_have_escapes(text, 4, 4),
        8..=15 => ends_have_escapes(text, 8, 8),
        16..=31 => ends_have_escapes(text, 16, 16),
        len => ends_have_escapes(text, len - len % 16, 16),
    }
}

/// Emits the escape of a control character.
fn emit_control<E: Emitter>(out: &mut E, b: u8)
    requires { b < 32 }
    ensures { out.new ≡ fold E.push out.old (control_escape b) }
{
    out.put(b"\\u00");
    out.put(&[hex_digit(b / 16), hex_digit(b % 16)]);
}

/// Emits a byte of a string, escaped where it has to be.
fn emit_byte<E: Emitter>(out: &mut E, b: u8)
    ensures { out.new ≡ fold E.push out.old (json_byte b) }
{
    match b {
        b'"' => out.put(b"\\\""),
        b'\\' => out.put(b"\\\\"),
        0..=0x1f => emit_control(out, b),
        _ => out.put(&[b]),
    }
}

/// Emits a string's content that has escapes.
#[cold]
fn emit_escaped<E: Emitter>(out: &mut E, text: &[u8])
    ensures { out.new ≡ fold E.push out.old (flat_map json_byte text.now) }
{
    for b in text {
        emit_byte(out, *b);
    }
}

/// Emits a string's content.
#[inline(always)]
pub(crate) fn emit_content<E: Emitter>(out: &mut E, text: &[u8])
    ensures { out.new ≡ fold E.push out.old (flat_map json_byte text.now) }
{
    if has_escapes(text) {
        return emit_escaped(out, text);
    }
    out.put(text)
}

/// Emits a string in quotes.
#[tactic(auto, unfolding(crate::specs::Json::json_string))]
fn emit_string<E: Emitter>(out: &mut E, text: &[u8])
    ensures { out.new ≡ fold E.push out.old (json_string text.now) }
{
    out.put(b"\"");
    emit_content(out, text);
    out.put(b"\"");
}

impl Json for Text {
    ghost text = { json_string };

    fn emit<E: Emitter>(&self, out: &mut E) {
        emit_string(out, self.as_bytes());
    }
}

impl Json for Name {
    ghost text = { json_string };

    fn emit<E: Emitter>(&self, out: &mut E) {
        emit_string(out, self.as_bytes());
    }
}
