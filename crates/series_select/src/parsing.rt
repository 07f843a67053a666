//! Reads a selector (Prometheus, "Time series selectors").
ghost use Rattle.std.specs.Prelude.{◌≡◌, [], length, option_map, IfErr, IfOk, IsUtf8, MatchOption, None};
ghost use Rattle.std.specs.List.{list_any};
ghost use Rattle.std.specs.Option.{option_copied};
ghost use Rattle.std.specs.Str.{is_utf8};
ghost use Rattle.label_sets.specs.Escapes.{is_backslash};
ghost use Rattle.label_sets.specs.Lists.{when_true};
ghost use Rattle.page_model.specs.TextItems.{without_leading_blanks};
ghost use Rattle.series_select.specs.SelectorReading.{matcher_at, matchers_at, with_name, rest_of, selector_in, sign_at, without_name};
ghost use Rattle.series_select.specs.SelectorSteps.{IsMatcherFound, IsNextMatcher, behind_matchers, matcher_of, sign_told};
ghost use Rattle.series_select.specs.Selectors.{IsSelectFault, SpellsSelector};

use crate::fault::SelectFault;
use crate::selector::{Matcher, Selector};
use label_sets::{List, Memory, Name};
use line_scan::{
    AfterLabel, Blank, Escapes, LabelChar, MetricChar, after_label, behind, behind_text, cut_chars,
    cut_name, quoted_at, unescaped_text,
};
use std::alloc::Global;

/// A sign, and what stands behind it.
#[derive(Clone, Copy)]
pub(crate) struct Sign<'a> {
    pub(crate) differs: bool,
    pub(crate) rest: &'a [u8],
}

/// A matcher as it is written.
#[derive(Clone, Copy)]
pub(crate) struct MatcherParts<'a> {
    pub(crate) name: &'a [u8],
    pub(crate) differs: bool,
    /// The value between the quotes, with its escapes.
    pub(crate) written: &'a [u8],
    /// Whether a backslash is written in the value.
    pub(crate) has_backslash: bool,
    /// What stands behind the matcher and its blanks.
    pub(crate) rest: &'a [u8],
}

/// The bytes without the blanks at the front.
pub(crate) fn without_leading_blanks(bytes: &[u8]) -> &[u8]
    ensures { result.now ≡ without_leading_blanks bytes.now }
{
    cut_chars::<Blank>(bytes).rest
}

/// The sign at the front.
#[tactic(auto, unfolding(crate::specs::SelectorReading::sign_at))]
fn sign_at(bytes: &[u8]) -> Option<Sign<'_>>
    ensures { option_map sign_told result ≡ sign_at bytes.now }
{
    if let Some(rest) = behind_text("!=", bytes) {
        return Some(Sign {
            differs: true,
            rest,
        });
    }
    match behind(b'=', bytes) {
        Some(rest) => Some(Sign {
            differs: false,
            rest,
        }),
        None => None,
    }
}

/// Whether bytes are UTF-8.
fn is_text(bytes: &[u8]) -> bool
    ensures { result ≡ is_utf8 bytes.now }
{
    match std::str::from_utf8(bytes) {
        Ok(_) => true,
        Err(_) => false,
    }
}

/// The matcher at the front.
pub(crate) fn matcher_at(bytes: &[u8]) -> Option<MatcherParts<'_>>
    ensures { MatchOption result (matcher_at bytes.now ≡ None) (IsMatcherFound (matcher_at bytes.now)) }
{
    let Some(name) = cut_name::<LabelChar>(bytes) else {
        return None;
    };
    let Some(sign) = sign_at(without_leading_blanks(name.rest)) else {
        return None;
    };
    let Some(opened) = behind(b'"', without_leading_blanks(sign.rest)) else {
        return None;
    };
    let Some(quoted) = quoted_at(opened) else {
        return None;
    };
    if !is_text(quoted.written) {
        return None;
    }
    Some(MatcherParts {
        name: name.front,
        differs: sign.differs,
        written: quoted.written,
        has_backslash: quoted.has_backslash,
        rest: without_leading_blanks(quoted.rest),
    })
}

/// The matcher that written parts make.
fn matcher_of(alloc: Global, parts: MatcherParts<'_>) -> Result<Matcher, Memory>
    requires name { IsUtf8 parts.name.now }
    requires written { IsUtf8 parts.written.now }
    requires backslash { parts.has_backslash ≡ list_any is_backslash parts.written.now }
    ensures { IfOk result (λ matcher. matcher ≡ matcher_of parts.entry) }
{
    let name = Name::from_utf8(alloc, parts.name)?;
    let value = unescaped_text(alloc, Escapes::Quoted, parts.written, parts.has_backslash)?;
    Ok(Matcher {
        name,
        differs: parts.differs,
        value,
    })
}

/// Adds the next matcher, and answers what follows it; at the closing brace there is none.
fn next_matcher<'a>(
    alloc: Global,
    bytes: &'a [u8],
    matchers: &mut Vec<Matcher>,
) -> Result<AfterLabel<'a>, Memory>
    ensures { IfOk result (IsNextMatcher bytes.entry.now matchers.old.items matchers.new.items) }
{
    let bytes = without_leading_blanks(bytes);
    if let Some(after) = behind(b'}', bytes) {
        return Ok(AfterLabel::End(after));
    }
    let Some(parts) = matcher_at(bytes) else {
        return Ok(AfterLabel::Broken);
    };
    let matcher = matcher_of(alloc, parts)?;
    matchers.push(matcher)?;
    Ok(after_label(parts.rest))
}

/// Adds the matchers up to the closing brace, and answers what stands behind it.
fn matchers_at<'a>(
    alloc: Global,
    bytes: &'a [u8],
    matchers: &mut Vec<Matcher>,
) -> Result<Option<&'a [u8]>, Memory>
    ensures { IfOk result (λ rest. option_map (λ cs. (matchers.new.items, cs)) (option_copied rest)
        ≡ behind_matchers matchers.old.items (matchers_at (length bytes.entry.now) bytes.entry.now)) }
{
    let mut rest = bytes;
    for _ in 0..bytes.len() {
        match next_matcher(alloc, rest, matchers)? {
            AfterLabel::End(after) => return Ok(Some(after)),
            AfterLabel::More(more) => rest = more,
            AfterLabel::Broken => return Ok(None),
        }
    }
    Ok(None)
}

/// Adds the matchers in braces, where these or nothing are all that is left, and answers whether they are.
fn read_rest(alloc: Global, bytes: &[u8], matchers: &mut Vec<Matcher>) -> Result<bool, Memory>
    requires { matchers.old.items ≡ [] }
    ensures { IfOk result (λ whole. when_true whole matchers.new.items ≡ rest_of bytes.now) }
{
    if bytes.is_empty() {
        return Ok(true);
    }
    let Some(inner) = behind(b'{', bytes) else {
        return Ok(false);
    };
    let Some(rest) = matchers_at(alloc, inner, matchers)? else {
        return Ok(false);
    };
    Ok(without_leading_blanks(rest).is_empty())
}

/// The selector of a name and what stands behind it.
fn named_selector(alloc: Global, name: &[u8], rest: &[u8]) -> Result<Option<Selector>, Memory>
    requires { IsUtf8 name.now }
    ensures { IfOk result (λ found. found ≡ with_name name.now (rest_of (without_leading_blanks rest.now))) }
{
    let mut matchers = Vec::new(alloc);
    if !read_rest(alloc, without_leading_blanks(rest), &mut matchers)? {
        return Ok(None);
    }
    let name = Name::from_utf8(alloc, name)?;
    let matchers = List::from_vec(matchers)?;
    Ok(Some(Selector {
        name: Some(name),
        matchers,
    }))
}

/// The selector of a list alone, which has a matcher.
fn unnamed_selector(alloc: Global, bytes: &[u8]) -> Result<Option<Selector>, Memory>
    ensures { IfOk result (λ found. found ≡ without_name (rest_of bytes.now)) }
{
    let mut matchers = Vec::new(alloc);
    if !read_rest(alloc, bytes, &mut matchers)? {
        return Ok(None);
    }
    let matchers = List::from_vec(matchers)?;
    if matchers.is_empty() {
        return Ok(None);
    }
    Ok(Some(Selector {
        name: None,
        matchers,
    }))
}

/// The selector that a text is, where it is one.
fn selector_in(alloc: Global, text: &[u8]) -> Result<Option<Selector>, Memory>
    ensures { IfOk result (λ found. found ≡ selector_in text.now) }
{
    let bytes = without_leading_blanks(text);
    match cut_name::<MetricChar>(bytes) {
        Some(name) => named_selector(alloc, name.front, name.rest),
        None => unnamed_selector(alloc, bytes),
    }
}

/// The selector that a text is: a metric name, a name with matchers in braces, or matchers in braces, of which there is
/// one at least. Blanks may stand between any two tokens and at the ends.
///
/// # Errors
///
/// [`SelectFault::Form`] where the text is none; and want of memory.
///
/// # Example
///
/// ```rust
/// let selector = parse(alloc, b"up{job=\"node\", mode!=\"idle\"}")?;
/// let last = selector.matchers.as_slice().last();
/// assert!(rt; selector.name.is_some_and(|name| name.as_str() == "up"));
/// assert!(rt; last.is_some_and(|matcher| matcher.differs && matcher.value.as_str() == "idle"));
/// assert!(rt; matches!(parse(alloc, b"{}"), Err(SelectFault::Form)));
/// ```
pub fn parse(alloc: Global, text: &[u8]) -> Result<Selector, SelectFault>
    ensures ok { IfOk result (λ selector. SpellsSelector text.now selector) }
    ensures form { IfErr result (IsSelectFault text.now) }
{
    match selector_in(alloc, text) {
        Ok(Some(selector)) => Ok(selector),
        Ok(None) => Err(SelectFault::Form),
        Err(_) => Err(SelectFault::Memory),
    }
}
