//! Tells whether a text is a selector, which takes no memory (Prometheus, "Time series selectors").
ghost use Rattle.std.specs.Prelude.{◌≡◌, true, false, length, is_some};
ghost use Rattle.std.specs.Option.{option_copied};
ghost use Rattle.series_select.specs.SelectorReading.{braced, rest_of, selector_in, without_name};
ghost use Rattle.series_select.specs.SelectorSteps.{IsNextEnd, behind_list};
ghost use Rattle.series_select.specs.Selectors.{IsNoSelector, IsSelector};

use crate::parsing::{matcher_at, without_leading_blanks};
use line_scan::{AfterLabel, MetricChar, after_label, behind, cut_name};

/// What follows the next matcher; at the closing brace there is none.
fn next_end(bytes: &[u8]) -> AfterLabel<'_>
    ensures { IsNextEnd bytes.now result }
{
    let front = without_leading_blanks(bytes);
    if let Some(after) = behind(b'}', front) {
        return AfterLabel::End(after);
    }
    match matcher_at(front) {
        Some(parts) => after_label(parts.rest),
        None => AfterLabel::Broken,
    }
}

/// What stands behind the closing brace of the matchers at the front.
fn behind_list(bytes: &[u8]) -> Option<&[u8]>
    ensures { option_copied result ≡ behind_list (length bytes.now) bytes.now }
{
    let mut rest = bytes;
    for _ in 0..bytes.len() {
        match next_end(rest) {
            AfterLabel::End(after) => return Some(after),
            AfterLabel::More(more) => rest = more,
            AfterLabel::Broken => return None,
        }
    }
    None
}

/// Whether behind an opening brace stand matchers, and behind the closing one nothing but blanks.
fn is_braced(inner: &[u8]) -> bool
    ensures { result ≡ is_some (braced inner.now) }
{
    match behind_list(inner) {
        Some(rest) => without_leading_blanks(rest).is_empty(),
        None => false,
    }
}

/// Whether nothing is left, or matchers in braces.
fn is_rest(bytes: &[u8]) -> bool
    ensures { result ≡ is_some (rest_of bytes.now) }
{
    if bytes.is_empty() {
        return true;
    }
    match behind(b'{', bytes) {
        Some(inner) => is_braced(inner),
        None => false,
    }
}

/// Whether these are matchers in braces, of which there is one at least.
fn is_unnamed(bytes: &[u8]) -> bool
    ensures { result ≡ is_some (without_name (rest_of bytes.now)) }
{
    let Some(inner) = behind(b'{', bytes) else {
        return false;
    };
    match behind(b'}', without_leading_blanks(inner)) {
        Some(_) => false,
        None => is_braced(inner),
    }
}

/// Whether a selector is found in a text.
fn has_selector(text: &[u8]) -> bool
    ensures { result ≡ is_some (selector_in text.now) }
{
    let bytes = without_leading_blanks(text);
    match cut_name::<MetricChar>(bytes) {
        Some(name) => is_rest(without_leading_blanks(name.rest)),
        None => is_unnamed(bytes),
    }
}

/// Whether a text is a selector, as [`parse`](crate::parse) reads it.
///
/// # Example
///
/// ```rust
/// assert!(rt; is_selector(b"up{job=\"node\"}") && !is_selector(b"{}"));
/// ```
pub fn is_selector(text: &[u8]) -> bool
    ensures told { result ≡ is_some (selector_in text.now) }
    ensures one { result ≡ true → IsSelector text.now }
    ensures none { result ≡ false → IsNoSelector text.now }
{
    has_selector(text)
}
