//! One pass over a number token. OpenMetrics 1.0, section "ABNF" (realnumber).

ghost use Rattle.std.specs.Prelude.{◌≡◌, false, MatchOption, option_copied};
ghost use Rattle.exact_decimal.specs.Tokens.{has_minus, unsigned, is_digits, is_real};
ghost use Rattle.exact_decimal.specs.Scans.{IsRun, IsFraction, IsScanned, behind_point, behind_mark, is_tail, IsExponent, IsCapped};

/// An exponent past this breaks a limit whatever the digits are.
const MOST_EXPONENT: u32 = 10_000;

/// The parts of a real.
#[derive(Clone, Copy)]
pub(crate) struct Real<'a> {
    /// The digits before the point.
    pub(crate) whole: &'a [u8],
    /// The digits behind the point.
    pub(crate) fraction: &'a [u8],
    /// The value of all digits, or `u64::MAX` where they are too many.
    pub(crate) value: u64,
    /// The power of ten that the exponent multiplies by, or 10,000 where that is less.
    pub(crate) up: u32,
    /// The power of ten that the exponent divides by, or 10,000 where that is less.
    pub(crate) down: u32,
    pub(crate) negative: bool,
}

/// Digits at the front of bytes, and what is behind them.
#[derive(Clone, Copy)]
struct Run<'a> {
    digits: &'a [u8],
    rest: &'a [u8],
    value: u64,
}

/// The powers of ten of an exponent.
#[derive(Clone, Copy)]
struct Exponent {
    up: u32,
    down: u32,
}

/// Whether a token has a minus, and the token without its sign.
#[tactic(auto, unfolding(crate::specs::Tokens::has_minus, crate::specs::Tokens::unsigned))]
pub fn split_sign(token: &[u8]) -> (bool, &[u8])
    ensures minus { result.0 ≡ has_minus token.now }
    ensures rest { result.1.now ≡ unsigned token.now }
{
    match token.split_first() {
        Some((b'-', rest)) => (true, rest),
        Some((b'+', rest)) => (false, rest),
        _ => (false, token),
    }
}

/// The digits at the front; their value goes on from the one before, up to `u64::MAX`.
#[tactic(auto, using(crate::proofs::Runs::digits_more, crate::proofs::Runs::value_more))]
fn split_digits(bytes: &[u8], before: u64) -> Run<'_>
    ensures { IsRun bytes.now before result.digits.now result.rest.now result.value }
{
    let mut value = before;
    let mut count = 0;
    while count < bytes.len() && bytes[count].is_ascii_digit() {
        value = if value < u64::MAX / 10 {
            value * 10 + u64::from(bytes[count] - b'0')
        } else {
            u64::MAX
        };
        count += 1;
    }
    Run {
        digits: &bytes[..count],
        rest: &bytes[count..],
        value,
    }
}

/// What stands behind a point at the front.
#[tactic(auto, unfolding(crate::specs::Scans::behind_point))]
fn behind_point(bytes: &[u8]) -> Option<&[u8]>
    ensures { option_copied result ≡ behind_point bytes.now }
{
    match bytes.split_first() {
        Some((b'.', more)) => Some(more),
        _ => None,
    }
}

/// The digits behind a point at the front, where there is one.
fn split_fraction(bytes: &[u8], before: u64) -> Run<'_>
    ensures { IsFraction bytes.now before result.digits.now result.rest.now result.value }
{
    match behind_point(bytes) {
        Some(more) => split_digits(more, before),
        None => Run {
            digits: &bytes[..0],
            rest: bytes,
            value: before,
        },
    }
}

/// The value of digits, or 10,000 where that is less; nothing where they aren't digits.
#[tactic(auto, using(crate::proofs::Runs::no_digits, crate::proofs::Runs::some_digits, crate::proofs::Runs::not_digits, crate::proofs::Runs::digits_more, crate::proofs::Runs::capped_more))]
fn capped_value(digits: &[u8]) -> Option<u32>
    ensures { MatchOption result (is_digits digits.now ≡ false) (IsCapped digits.now) }
{
    if digits.is_empty() {
        return None;
    }
    let mut value: u32 = 0;
    for digit in digits {
        if !digit.is_ascii_digit() {
            return None;
        }
        value = (value * 10 + u32::from(*digit - b'0')).min(MOST_EXPONENT);
    }
    Some(value)
}

/// What stands behind an exponent's mark at the front.
#[tactic(auto, unfolding(crate::specs::Scans::behind_mark))]
fn behind_mark(tail: &[u8]) -> Option<&[u8]>
    ensures { option_copied result ≡ behind_mark tail.now }
{
    match tail.split_first() {
        Some((b'e' | b'E', behind)) => Some(behind),
        _ => None,
    }
}

/// The exponent at the end of a real, or none; nothing where the tail is neither.
fn read_exponent(tail: &[u8]) -> Option<Exponent>
    ensures { MatchOption result (is_tail tail.now ≡ false) (λ e. IsExponent tail.now e.up e.down) }
{
    if tail.is_empty() {
        return Some(Exponent { up: 0, down: 0 });
    }
    let Some(behind) = behind_mark(tail) else {
        return None;
    };
    let (negative, digits) = split_sign(behind);
    let Some(power) = capped_value(digits) else {
        return None;
    };
    if negative {
        Some(Exponent { up: 0, down: power })
    } else {
        Some(Exponent { up: power, down: 0 })
    }
}

/// The parts of a token that is a real; nothing where it is none.
pub(crate) fn scan(token: &[u8]) -> Option<Real<'_>>
    ensures { MatchOption result (is_real token.now ≡ false)
        (λ r. IsScanned token.now r.negative r.whole.now r.fraction.now r.value r.up r.down) }
{
    let (negative, digits) = split_sign(token);
    let whole = split_digits(digits, 0);
    let fraction = split_fraction(whole.rest, whole.value);
    if whole.digits.is_empty() && fraction.digits.is_empty() {
        return None;
    }
    let Some(exponent) = read_exponent(fraction.rest) else {
        return None;
    };
    Some(Real {
        whole: whole.digits,
        fraction: fraction.digits,
        value: fraction.value,
        up: exponent.up,
        down: exponent.down,
        negative,
    })
}
