//! The one form of a decimal.
ghost use Rattle.std.specs.Prelude.{◌≡◌, ℕ, pos, ◌-ℤ◌};
ghost use Rattle.exact_decimal.specs.Decimals.{IsNormal};
ghost use Rattle.exact_decimal.specs.Tokens.{zero_decimal};

use std::marker::Model;

/// How many values a quarter of 128 bits has.
const QUARTER: u128 = 1 << 32;

/// A decimal in its one form: `digits` is not divisible by 10 unless it is 0, and zero has no sign
/// and power 0. There are at most 38 digits, and the leading one stands at a power of ten from -400
/// to 308.
#[derive(Clone, Copy, Debug, PartialEq, Eq, Hash)]
pub struct Decimal {
    // The digits in four quarters of 32 bits, the lowest first: 128 bits in one would take more room.
    first: u32,
    second: u32,
    third: u32,
    fourth: u32,
    up: u16,
    down: u16,
    negative: bool,
}

const _: () = prove!(std::mem::size_of::<Decimal>() <= 24);

impl Model for Decimal {
    ghost use Rattle.exact_decimal.specs.Decimals.{DecimalValue, IsNormal, of_quarters};
    ghost use Rattle.std.specs.Prelude.{◌^◌, ◌%◌, ◌/◌, ◌<◌};

    ghost Value = { DecimalValue };

    ghost view = { λ d. record { negative = d.negative; digits = of_quarters d.first d.second d.third d.fourth; up = d.up; down = d.down } };

    ghost inverse = { λ v. record { first = v.digits % 2 ^ 32; second = v.digits / 2 ^ 32 % 2 ^ 32; third = v.digits / 2 ^ 32 / 2 ^ 32 % 2 ^ 32; fourth = v.digits / 2 ^ 32 / 2 ^ 32 / 2 ^ 32; up = v.up; down = v.down; negative = v.negative } };

    ghost invariant = { λ d. (d.first < 2 ^ 32) × (d.second < 2 ^ 32) × (d.third < 2 ^ 32) × IsNormal (record { negative = d.negative; digits = of_quarters d.first d.second d.third d.fourth; up = d.up; down = d.down }) };
}

impl Decimal {
    /// Zero.
    pub(crate) fn zero() -> Decimal
        ensures { result ≡ zero_decimal }
    {
        Decimal::new(false, 0, 0, 0)
    }

    /// A decimal from its sign, its digits and the powers of ten that multiply and divide them.
    pub(crate) fn new(negative: bool, digits: u128, up: u16, down: u16) -> Decimal
        requires { IsNormal (record { negative = negative; digits = digits; up = up; down = down }) }
        ensures { result ≡ record { negative = negative; digits = digits; up = up; down = down } }
    {
        Decimal {
            first: (digits % QUARTER) as u32,
            second: (digits / QUARTER % QUARTER) as u32,
            third: (digits / QUARTER / QUARTER % QUARTER) as u32,
            fourth: (digits / QUARTER / QUARTER / QUARTER) as u32,
            up,
            down,
            negative,
        }
    }

    /// Whether the value is below zero.
    pub fn negative(&self) -> bool
        ensures negative { result ≡ self.now.negative }
        ensures normal { IsNormal self.now }
    {
        self.negative
    }

    /// The whole number that a power of ten multiplies.
    pub fn digits(&self) -> u128
        ensures { result ≡ self.now.digits }
    {
        ((u128::from(self.fourth) * QUARTER + u128::from(self.third)) * QUARTER
            + u128::from(self.second))
            * QUARTER
            + u128::from(self.first)
    }

    /// The power of ten.
    pub fn power(&self) -> i32
        ensures power { result ≡ pos self.now.up -ℤ pos self.now.down }
        ensures normal { IsNormal self.now }
    {
        self.up as i32 - self.down as i32
    }

    pub(crate) fn up(&self) -> u16
        ensures up { result ≡ self.now.up }
        ensures normal { IsNormal self.now }
    {
        self.up
    }

    pub(crate) fn down(&self) -> u16
        ensures down { result ≡ self.now.down }
        ensures normal { IsNormal self.now }
    {
        self.down
    }
}
