//! Quoted values and escaped texts (Prometheus text format 0.0.4, "Comments, help text, and type
//! information").
ghost use Rattle.std.specs.Prelude.{◌≡◌, ◌<◌, length, option_map, slice_index, IfOk, IfSome, IsUtf8, MatchOption};
ghost use Rattle.std.specs.List.{list_any};
ghost use Rattle.label_sets.specs.Escapes.{is_backslash, quoted_at, unescaped};
ghost use Rattle.line_scan.specs.Marks.{HasNoMark, IsFirstMark, escape_of, escape_at, step_over, IsFirstOf};

use label_sets::{Memory, Text};
use memchr::memchr2_iter;
use std::alloc::Global;

/// Which characters a backslash escapes.
#[derive(Clone, Copy)]
pub enum Escapes {
    /// A backslash and a line feed.
    Help,
    /// A quote too.
    Quoted,
}

/// A value between quotes.
#[derive(Clone, Copy)]
pub struct QuotedValue<'a> {
    /// As written, with its escapes.
    pub written: &'a [u8],
    /// Whether a backslash is written in it.
    pub has_backslash: bool,
    /// What stands behind the second quote.
    pub rest: &'a [u8],
}

/// How many bytes a byte takes with what it escapes.
fn step_over(byte: u8) -> usize
    ensures { result ≡ step_over byte }
{
    if byte == b'\\' { 2 } else { 1 }
}

/// Where the first quote or backslash stands.
fn find_mark(bytes: &[u8]) -> Option<usize>
    ensures { MatchOption result (HasNoMark bytes.now) (IsFirstMark bytes.now) }
{
    memchr2_iter(b'"', b'\\', bytes).next()
}

/// The value, where the first backslash stands at `start` and no quote in front of it.
fn value_from(bytes: &[u8], start: usize) -> Option<QuotedValue<'_>>
    requires mark { IsFirstMark bytes.now start }
    requires backslash { slice_index bytes.now start ≡ 92 }
    ensures value { option_map (λ value. (value.written.now, value.rest.now)) result ≡ quoted_at bytes.now }
    ensures backslash { IfSome result (λ value. value.has_backslash ≡ list_any is_backslash value.written.now) }
    ensures utf8 { IsUtf8 bytes.now → IfSome result (λ value. IsUtf8 value.written.now × IsUtf8 value.rest.now) }
{
    let mut at = start;
    while at < bytes.len() {
        let byte = bytes[at];
        if byte == b'"' {
            return Some(QuotedValue {
                written: &bytes[..at],
                has_backslash: true,
                rest: &bytes[at + 1..],
            });
        }
        at += step_over(byte);
    }
    None
}

/// What stands in front of the first quote that isn't escaped, and behind it.
#[inline(always)]
pub fn quoted_at(bytes: &[u8]) -> Option<QuotedValue<'_>>
    ensures value { option_map (λ value. (value.written.now, value.rest.now)) result ≡ quoted_at bytes.now }
    ensures backslash { IfSome result (λ value. value.has_backslash ≡ list_any is_backslash value.written.now) }
    ensures utf8 { IsUtf8 bytes.now → IfSome result (λ value. IsUtf8 value.written.now × IsUtf8 value.rest.now) }
{
    let Some(at) = find_mark(bytes) else {
        return None;
    };
    if bytes[at] == b'\\' {
        return value_from(bytes, at);
    }
    Some(QuotedValue {
        written: &bytes[..at],
        has_backslash: false,
        rest: &bytes[at + 1..],
    })
}

/// What a byte behind a backslash stands for.
fn escaped(escapes: Escapes, byte: u8) -> Option<u8>
    ensures { result ≡ escape_of escapes byte }
{
    match (escapes, byte) {
        (_, b'\\') => Some(b'\\'),
        (_, b'n') => Some(b'\n'),
        (Escapes::Quoted, b'"') => Some(b'"'),
        _ => None,
    }
}

/// What the escape at the front stands for, where one is there.
fn escape_at(escapes: Escapes, written: &[u8]) -> Option<u8>
    ensures { result ≡ escape_at (escape_of escapes) written.now }
{
    match written {
        [b'\\', next, ..] => escaped(escapes, *next),
        _ => None,
    }
}

/// The first byte of an escaped text, and how many of the written bytes it takes.
fn first_byte(escapes: Escapes, written: &[u8]) -> (u8, usize)
    requires { 0 < length written.now }
    ensures { IsFirstOf (escape_of escapes) written.now result.0 result.1 }
{
    match escape_at(escapes, written) {
        Some(byte) => (byte, 2),
        None => (written[0], 1),
    }
}

/// The bytes that escaped ones stand for.
#[inline(never)]
fn unescaped(alloc: Global, escapes: Escapes, written: &[u8]) -> Result<Vec<u8>, Memory>
    ensures { IfOk result (λ bytes. bytes.items ≡ unescaped (escape_of escapes) written.now) }
{
    let mut bytes = Vec::with_capacity(alloc, written.len())?;
    let mut at = 0;
    while at < written.len() {
        let (byte, used) = first_byte(escapes, &written[at..]);
        bytes.extend_from_slice(&[byte])?;
        at += used;
    }
    Ok(bytes)
}

/// Whether a backslash stands in a text.
pub fn has_backslash(written: &[u8]) -> bool
    ensures { result ≡ list_any is_backslash written.now }
{
    written.contains(&b'\\')
}

/// The text that escaped bytes stand for. Bytes without a backslash are copied at once.
///
/// # Errors
///
/// Want of memory.
#[inline(always)]
pub fn unescaped_text(
    alloc: Global,
    escapes: Escapes,
    written: &[u8],
    has_backslash: bool,
) -> Result<Text, Memory>
    requires text { IsUtf8 written.now }
    requires backslash { has_backslash ≡ list_any is_backslash written.now }
    ensures { IfOk result (λ text. text ≡ unescaped (escape_of escapes) written.now) }
{
    if !has_backslash {
        return Text::from_utf8(alloc, written);
    }
    let bytes = unescaped(alloc, escapes, written)?;
    // What UTF-8 stands for is UTF-8: escapes are of ASCII and stand for ASCII.
    let text = unsafe { String::from_utf8_unchecked(bytes) };
    Text::from_string(text)
}
