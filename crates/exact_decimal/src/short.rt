//! Decimals of whole numbers that 64 bits hold.

ghost use Rattle.std.specs.Prelude.{◌≡◌, ◌≢◌, ℕ, List, ◌*◌, ◌^◌, ◌%◌, ◌≤◌, Ok};
ghost use Rattle.std.specs.Str.Parse.{digits_value};
ghost use Rattle.exact_decimal.specs.Scans.{AreDigits, within_limits};
ghost use Rattle.exact_decimal.specs.declared.number.Number.TheVariants.{Finite};

use crate::decimal::Decimal;

/// A number without the zeros at its end, and how many those are.
fn strip(value: u64) -> (u64, u64)
    requires { value ≢ 0 }
    ensures value { result.0 * 10 ^ result.1 ≡ value }
    ensures last { result.0 % 10 ≢ 0 }
{
    let mut digits = value;
    let mut zeros = 0;
    while digits % 10 == 0 {
        digits /= 10;
        zeros += 1;
    }
    (digits, zeros)
}

/// The decimal of value × 10^up / 10^down. Powers as small as these keep every limit.
pub(crate) fn short_decimal(negative: bool, value: u64, up: u32, down: u32) -> Decimal
    requires up { up ≤ 200 }
    requires down { down ≤ 400 }
    ensures { (ds : List ℕ) → AreDigits ds → digits_value 10 ds ≡ value → within_limits negative ds up down ≡ Ok (Finite result) }
{
    if value == 0 {
        return Decimal::zero();
    }
    let (digits, zeros) = strip(value);
    let power = u64::from(up) + zeros;
    let down = u64::from(down);
    Decimal::new(
        negative,
        u128::from(digits),
        power.saturating_sub(down) as u16,
        down.saturating_sub(power) as u16,
    )
}
