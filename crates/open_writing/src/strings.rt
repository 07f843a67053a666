//! Quoted texts with their escapes (OpenMetrics 1.0, "Escaping").

ghost use Rattle.std.specs.Prelude.{◌≡◌, ◌+◌, ◌≤◌, fold, length};
ghost use Rattle.std.specs.List.{list_any};
ghost use Rattle.open_writing.specs.Pieces.{is_marked};
ghost use Rattle.open_writing.specs.Writing.{escaped, escaped_char};

use text_emitter::Emitter;

/// Whether some byte of a piece of text stands in it by an escape.
#[inline(always)]
fn piece_has_marks(piece: &[u8]) -> bool
    ensures { result ≡ list_any is_marked piece.now }
{
    // There is no branch on a byte, so that many are tested at once.
    let mut any = false;
    for b in piece {
        any |= (*b == b'\\') | (*b == b'"') | (*b == b'\n');
    }
    any
}

/// The same for a text, by a piece at its front and one at its end, which may overlap.
#[inline(always)]
fn ends_have_marks(text: &[u8], front: usize, end: usize) -> bool
    requires front { front ≤ length text.now }
    requires end { end ≤ length text.now }
    requires whole { length text.now ≤ front + end }
    ensures { result ≡ list_any is_marked text.now }
{
    piece_has_marks(&text[..front]) | piece_has_marks(&text[text.len() - end..])
}

/// Whether some byte of a text stands in it by an escape.
///
/// Most texts are short. A piece of a fixed size is tested at once, and two of them that overlap leave
/// no byte to be tested alone.
#[inline(always)]
fn has_marks(text: &[u8]) -> bool
    ensures { result ≡ list_any is_marked text.now }
{
    match text.len() {
        0..=3 => piece_has_marks(text),
        4..=7 => ends_have_marks(text, 4, 4),
        8..=15 => ends_have_marks(text, 8, 8),
        16..=31 => ends_have_marks(text, 16, 16),
        len => ends_have_marks(text, len - len % 16, 16),
    }
}

/// Emits a byte of a text, escaped where it has to be.
fn emit_byte<E: Emitter>(out: &mut E, b: u8)
    ensures { out.new ≡ fold E.push out.old (escaped_char b) }
{
    match b {
        b'\\' => out.put(b"\\\\"),
        b'"' => out.put(b"\\\""),
        b'\n' => out.put(b"\\n"),
        _ => out.put(&[b]),
    }
}

/// Emits a text that has escapes.
#[cold]
#[tactic(auto, unfolding(crate::specs::Writing::escaped))]
fn emit_marked<E: Emitter>(out: &mut E, text: &[u8])
    ensures { out.new ≡ fold E.push out.old (escaped text.now) }
{
    for b in text {
        emit_byte(out, *b);
    }
}

/// Emits a text with its escapes.
#[inline(always)]
#[tactic(auto, using(crate::proofs::Escapes::unmarked_escaped))]
pub(crate) fn emit_escaped<E: Emitter>(out: &mut E, text: &[u8])
    ensures { out.new ≡ fold E.push out.old (escaped text.now) }
{
    if has_marks(text) {
        return emit_marked(out, text);
    }
    out.put(text)
}
