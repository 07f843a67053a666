//! Numbers, and how they are read from tokens. OpenMetrics 1.0, section "ABNF" (number);
//! Prometheus text format 0.0.4, section "Text format details" (value).

ghost use Rattle.std.specs.Prelude.{◌≡◌, ℕ, List, ◌+◌, ◌-◌, ◌^◌, ◌<◌, ◌≤◌, ◌++◌, false, length};
ghost use Rattle.std.specs.Str.Parse.{digits_value};
ghost use Rattle.exact_decimal.specs.Tokens.{is_real, most_bytes};
ghost use Rattle.exact_decimal.specs.Numbers.{number_read, number_of};
ghost use Rattle.exact_decimal.specs.Scans.{AreDigits, Keeps, most_exponent, within_limits};

use crate::decimal::Decimal;
use crate::digits::Kept;
use crate::short::short_decimal;
use crate::token::{Real, scan, split_sign};

/// The most bytes that a token may have.
const MOST_BYTES: usize = 128;

/// The highest power of ten at which the leading digit may stand.
const MOST_POWER: u32 = 308;

/// The lowest such power is -400.
const LEAST_POWER: u32 = 400;

/// The value of a sample: a decimal, an infinity, or not a number.
#[derive(Clone, Copy, Debug, PartialEq, Eq, Hash)]
pub enum Number {
    Finite(Decimal),
    /// The infinity above all decimals.
    Up,
    /// The infinity below all decimals.
    Down,
    NotANumber,
}

const _: () = prove!(std::mem::size_of::<Number>() <= 28);

/// Why a token is not read.
#[derive(Clone, Copy, Debug, PartialEq, Eq)]
pub enum NumberFault {
    /// The token is not in the grammar.
    NotANumber,
    /// The token is in the grammar and breaks a limit.
    OutOfRange,
}

/// The number of a sign, the digits that are kept and the powers of ten that multiply and divide them.
fn kept_number(kept: Kept, negative: bool, up: u32, down: u32) -> Result<Number, NumberFault>
    requires up { up ≤ most_exponent }
    requires down { down ≤ most_exponent + most_exponent }
    requires zeros { kept.zeros ≤ most_bytes }
    ensures { (ds : List ℕ) → Keeps ds kept.digits kept.zeros kept.places → result ≡ within_limits negative ds up down }
{
    if kept.places == 0 {
        return Ok(Number::Finite(Decimal::zero()));
    }
    let power = up + kept.zeros;
    let leading = power + kept.places - 1;
    if leading + LEAST_POWER < down {
        return Err(NumberFault::OutOfRange);
    }
    if MOST_POWER + down < leading {
        return Err(NumberFault::OutOfRange);
    }
    let decimal = Decimal::new(
        negative,
        kept.digits,
        power.saturating_sub(down) as u16,
        down.saturating_sub(power) as u16,
    );
    Ok(Number::Finite(decimal))
}

/// The number of a real. Most reals take the first way: their digits fit 64 bits.
fn real_number(real: Real<'_>) -> Result<Number, NumberFault>
    requires digits { AreDigits (real.whole.now ++ real.fraction.now) }
    requires exact { real.value < 2 ^ 64 - 1 → real.value ≡ digits_value 10 (real.whole.now ++ real.fraction.now) }
    requires few { length real.whole.now + length real.fraction.now ≤ most_bytes }
    requires up { real.up ≤ most_exponent }
    requires down { real.down ≤ most_exponent }
    ensures { let r = real.entry in result ≡ within_limits r.negative (r.whole.now ++ r.fraction.now) r.up (r.down + length r.fraction.now) }
{
    let down = real.down + real.fraction.len() as u32;
    if real.value < u64::MAX && real.up <= 200 && down <= 400 {
        return Ok(Number::Finite(short_decimal(real.negative, real.value, real.up, down)));
    }
    let Some(kept) = Kept::of(real.whole, real.fraction) else {
        return Err(NumberFault::OutOfRange);
    };
    kept_number(kept, real.negative, real.up, down)
}

/// What a token that is no real is read as.
#[tactic(auto, unfolding(crate::specs::Numbers::number_read, crate::specs::Tokens::is_infinity, crate::specs::Tokens::is_nan_token))]
fn read_word(token: &[u8]) -> Result<Number, NumberFault>
    requires { is_real token.now ≡ false }
    ensures { result ≡ number_read token.now }
{
    let (negative, word) = split_sign(token);
    if word.eq_ignore_ascii_case(b"inf") || word.eq_ignore_ascii_case(b"infinity") {
        return Ok(if negative { Number::Down } else { Number::Up });
    }
    if token.eq_ignore_ascii_case(b"nan") {
        return Ok(Number::NotANumber);
    }
    Err(NumberFault::NotANumber)
}

/// The number that a token of a page, a label `le` or `quantile`, or a timestamp writes down: a real with an
/// optional sign and exponent, `inf` or `infinity` with an optional sign, or `nan`, in any case of letters.
/// The value is exact, and negative zero is zero.
///
/// `NotANumber` where the token is none of these. `OutOfRange` where it is and breaks a limit (the bridge's
/// own): 128 bytes; 38 digits without the zeros at both ends, and a leading digit at a power of ten from
/// -400 to 308, of which zero is free.
///
/// # Errors
///
/// [`NumberFault::NotANumber`] where the token is not in the grammar, [`NumberFault::OutOfRange`] where it is and
/// breaks a limit. It takes no memory.
///
/// # Example
///
/// ```rust
/// if let Number::Finite(decimal) = read(b"-1.50e3")? {
///     assert_eq!(rt; (decimal.negative(), decimal.digits(), decimal.power()), (true, 15, 2));
/// }
/// assert_eq!(rt; read(b"+Inf"), Ok(Number::Up));
/// assert_eq!(rt; read(b"0x1p3"), Err(NumberFault::NotANumber));
/// assert_eq!(rt; read(b"1e309"), Err(NumberFault::OutOfRange));
/// ```
pub fn read(token: &[u8]) -> Result<Number, NumberFault>
    ensures { result ≡ number_read token.now }
{
    let Some(real) = scan(token) else {
        return read_word(token);
    };
    if token.len() > MOST_BYTES {
        return Err(NumberFault::OutOfRange);
    }
    real_number(real)
}

/// The number n, for counts and times of the bridge's own.
#[tactic(auto, unfolding(crate::specs::Numbers::number_of))]
pub fn of(n: u64) -> Number
    ensures { result ≡ number_of n }
{
    Number::Finite(short_decimal(false, n, 0, 0))
}
