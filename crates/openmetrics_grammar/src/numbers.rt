//! Numbers and timestamps of a line (OpenMetrics 1.0, "ABNF": number, timestamp).
ghost use Rattle.std.specs.Prelude.{◌≡◌, ◌&&◌, ℕ, List, Option, option_map, IfSome, IsUtf8, MatchOption, None, Some, take_while};
ghost use Rattle.std.specs.Option.{option_copied};
ghost use Rattle.label_sets.specs.Lists.{rest_while, when_true};
ghost use Rattle.exact_decimal.specs.Order.{is_finite};
ghost use Rattle.exact_decimal.specs.Tokens.{is_number_token, is_real};
ghost use Rattle.page_model.specs.OpenReading.{is_not_space, value_at, stamp_at};
ghost use Rattle.openmetrics_grammar.specs.Tokens.{is_no_real, token_read, token_at, written_stamp_at, IsValueAt, IsStampAt};

use exact_decimal::{Number, NumberFault};
use line_scan::{CharClass, Cut, behind, behind_text, cut_chars};

/// A character that is no space: tokens are made of these.
struct NotSpace;

impl CharClass for NotSpace {
    ghost test = { is_not_space };

    fn has(byte: u8) -> bool {
        byte != b' '
    }
}

/// What a token says: the number NaN where it is out of range.
#[derive(Drop)]
struct TokenRead {
    number: Number,
    in_range: bool,
}

/// A number, and what stands behind it.
#[derive(Drop)]
pub(crate) struct ValueAt<'a> {
    pub value: Number,
    pub in_range: bool,
    pub rest: &'a [u8],
}

/// A timestamp or that there is none, and what stands behind it.
#[derive(Drop)]
pub(crate) struct StampAt<'a> {
    pub stamp: Option<Number>,
    pub in_range: bool,
    pub rest: &'a [u8],
}

/// What stands in front of the first space, and what from there on.
fn cut_token(bytes: &[u8]) -> Cut<'_>
    ensures front { result.front.now ≡ take_while is_not_space bytes.now }
    ensures rest { result.rest.now ≡ rest_while is_not_space bytes.now }
    ensures utf8 { IsUtf8 bytes.now → IsUtf8 result.rest.now }
{
    cut_chars::<NotSpace>(bytes)
}

/// The token behind a space, and what stands behind it.
fn token_at(bytes: &[u8]) -> Option<Cut<'_>>
    ensures value { option_map (λ cut. (cut.front.now, cut.rest.now)) result ≡ token_at bytes.now }
    ensures utf8 { IsUtf8 bytes.now → IfSome result (λ cut. IsUtf8 cut.rest.now) }
{
    match behind(b' ', bytes) {
        Some(text) => Some(cut_token(text)),
        None => None,
    }
}

/// Whether a number is neither an infinity nor NaN.
fn is_finite(number: &Number) -> bool
    ensures { result ≡ is_finite number.now }
{
    matches!(number, Number::Finite(_))
}

/// What a number token says; nothing of any other token.
fn number_token(token: &[u8]) -> Option<TokenRead>
    ensures { result ≡ when_true (is_number_token token.now) (token_read token.now) }
{
    match exact_decimal::read(token) {
        Ok(number) => Some(TokenRead {
            number,
            in_range: true,
        }),
        Err(NumberFault::OutOfRange) => Some(TokenRead {
            number: Number::NotANumber,
            in_range: false,
        }),
        Err(NumberFault::NotANumber) => None,
    }
}

/// Whether a token says an infinity or NaN.
fn is_no_real(read: &TokenRead) -> bool
    ensures { result ≡ is_no_real read.now }
{
    read.in_range && !is_finite(&read.number)
}

/// What the token of a real says; nothing of any other token.
fn real_token(token: &[u8]) -> Option<TokenRead>
    ensures { result ≡ when_true (is_real token.now) (token_read token.now) }
{
    let Some(read) = number_token(token) else {
        return None;
    };
    if is_no_real(&read) {
        return None;
    }
    Some(read)
}

/// The number behind a space.
pub(crate) fn value_at(bytes: &[u8]) -> Option<ValueAt<'_>>
    ensures { MatchOption result (value_at bytes.now ≡ None) (IsValueAt bytes.now) }
{
    let Some(token) = token_at(bytes) else {
        return None;
    };
    let Some(read) = number_token(token.front) else {
        return None;
    };
    Some(ValueAt {
        value: read.number,
        in_range: read.in_range,
        rest: token.rest,
    })
}

/// The timestamp behind a space.
fn written_stamp_at(bytes: &[u8]) -> Option<StampAt<'_>>
    ensures { MatchOption result (written_stamp_at bytes.now ≡ None) (IsStampAt (written_stamp_at bytes.now) bytes.now) }
{
    let Some(token) = token_at(bytes) else {
        return None;
    };
    let Some(read) = real_token(token.front) else {
        return None;
    };
    Some(StampAt {
        stamp: Some(read.number),
        in_range: read.in_range,
        rest: token.rest,
    })
}

/// That no timestamp is at the front.
fn no_stamp(bytes: &[u8]) -> StampAt<'_>
    ensures { (found : Option (Option (List ℕ) × List ℕ)) → found ≡ Some (None, bytes.now) → IsStampAt found bytes.now result }
{
    StampAt {
        stamp: None,
        in_range: true,
        rest: bytes,
    }
}

/// The timestamp at the front, where one is there: in front of an exemplar and at the end there is none.
pub(crate) fn stamp_at(bytes: &[u8]) -> Option<StampAt<'_>>
    ensures { MatchOption result (stamp_at bytes.now ≡ None) (IsStampAt (stamp_at bytes.now) bytes.now) }
{
    if bytes.is_empty() {
        return Some(no_stamp(bytes));
    }
    match behind_text(" # ", bytes) {
        Some(_) => Some(no_stamp(bytes)),
        None => written_stamp_at(bytes),
    }
}

/// Whether a number and the timestamp behind it are in range.
pub(crate) fn are_in_range(value: &ValueAt<'_>, stamp: &StampAt<'_>) -> bool
    ensures { result ≡ (value.now.in_range && stamp.now.in_range) }
{
    value.in_range && stamp.in_range
}
