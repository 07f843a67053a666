//! Timestamps: whole milliseconds with an optional sign (Prometheus text format 0.0.4, "Line format").
ghost use Rattle.std.specs.Prelude.{◌≡◌, ◌^◌, ◌∷◌, ℕ, min, Some, None, if◌then◌else◌, option_map, true, IfSome};
ghost use Rattle.std.specs.Option.{option_copied};
ghost use Rattle.std.specs.Str.Parse.{digits_value};
ghost use Rattle.std.specs.Fmt.{decimal};
ghost use Rattle.std.specs.List.{list_all};
ghost use Rattle.label_sets.specs.Lists.{some_passes};
ghost use Rattle.std.specs.Char.{is_ascii_digit};
ghost use Rattle.exact_decimal.specs.Tokens.{has_minus, unsigned, is_digits};
ghost use Rattle.exact_decimal.specs.Numbers.{number};
ghost use Rattle.page_model.specs.Written.{size_of, is_out_of_i64, short_token};
ghost use Rattle.page_model.specs.TextItems.{is_integer_token};
ghost use Rattle.page_model.specs.TextReading.{stamp_of};

use crate::blanks::without_leading_blanks;
use exact_decimal::{Number, signed_whole, split_sign};

/// Two to the power of 63: a timestamp lies below it, and not below its opposite.
const STAMP_END: u128 = 1 << 63;

/// Sizes are counted up to this.
const ENOUGH: u128 = 1 << 64;

/// Whether each byte is a digit.
fn are_digits(bytes: &[u8]) -> bool
    ensures { result ≡ list_all is_ascii_digit bytes.now }
{
    bytes.iter().all(|byte| byte.is_ascii_digit())
}

/// One digit or more.
#[tactic(auto, using(crate::proofs::Digits::digits_are, exact_decimal::proofs::Runs::no_digits))]
fn is_digits(bytes: &[u8]) -> bool
    ensures { result ≡ is_digits bytes.now }
{
    if bytes.is_empty() {
        return false;
    }
    are_digits(bytes)
}

/// Whether a token is a whole number with an optional sign.
#[tactic(auto, unfolding(page_model::specs::TextItems::is_integer_token))]
fn is_integer(token: &[u8]) -> bool
    ensures { result ≡ is_integer_token token.now }
{
    let (_, digits) = split_sign(token);
    is_digits(digits)
}

/// The timestamp that is all that is left of a line, or that there is none; nothing where what is left is
/// no timestamp.
pub(crate) fn stamp_of(bytes: &[u8]) -> Option<Option<&[u8]>>
    ensures value { option_map option_copied result ≡ stamp_of bytes.now }
    ensures token { IfSome result (λ stamp. IfSome stamp (λ token. is_integer_token token.now ≡ true)) }
{
    if bytes.is_empty() {
        return Some(None);
    }
    let stamp = without_leading_blanks(bytes);
    if !is_integer(stamp) {
        return None;
    }
    Some(Some(stamp))
}

/// The value of digits, or `ENOUGH` where that is less.
fn capped_value(digits: &[u8]) -> u128
    requires { list_all is_ascii_digit digits.now ≡ true }
    ensures { result ≡ min (digits_value 10 digits.now) (2 ^ 64) }
{
    let mut value: u128 = 0;
    for digit in digits {
        value = (value * 10 + u128::from(*digit - b'0')).min(ENOUGH);
    }
    value
}

/// The number of a timestamp; nothing where a signed 64-bit number doesn't hold it.
pub(crate) fn stamp_number(token: &[u8]) -> Option<Number>
    requires { is_integer_token token.now ≡ true }
    ensures { result ≡ (if is_out_of_i64 token.now then None else Some (number (short_token token.now))) }
{
    let (negative, digits) = split_sign(token);
    let size = capped_value(digits);
    let end = if negative { STAMP_END + 1 } else { STAMP_END };
    if size >= end {
        return None;
    }
    Some(signed_whole(negative, size as u64))
}

/// The number of a timestamp, or that there is none; nothing where a signed 64-bit number doesn't hold it.
pub(crate) fn optional_number(stamp: Option<&[u8]>) -> Option<Option<Number>>
    requires { IfSome stamp (λ token. is_integer_token token.now ≡ true) }
    ensures { let token = option_copied stamp.entry in
        result ≡ (if some_passes is_out_of_i64 token then None else Some (option_map (λ t. number (short_token t)) token)) }
{
    let Some(token) = stamp else {
        return Some(None);
    };
    match stamp_number(token) {
        Some(number) => Some(Some(number)),
        None => None,
    }
}
