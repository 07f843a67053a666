//! The order of numbers, and whole numbers among them.
ghost use Rattle.std.specs.Prelude.{◌≡◌, ◌≢◌, ◌+◌, ◌*◌, ◌/◌, ◌^◌, ◌<◌};
ghost use Rattle.std.specs.Option.{SomeIff};
ghost use Rattle.std.specs.Ordering.{nat_cmp};
ghost use Rattle.exact_decimal.specs.Decimals.{decimal_cmp, size_beside};
ghost use Rattle.exact_decimal.specs.Order.{less, whole, nanos, in_64_bits, floor_of};

use crate::decimal::Decimal;
use crate::number::Number;
use std::cmp::Ordering;

/// The order of two decimals by their values.
pub fn compare(a: &Decimal, b: &Decimal) -> Ordering
    ensures { result ≡ decimal_cmp a.now b.now }
{
    match (a.negative(), b.negative()) {
        (false, false) => compare_sizes(a, b),
        (true, true) => compare_sizes(b, a),
        (true, false) => Ordering::Less,
        (false, true) => Ordering::Greater,
    }
}

// The order of the values without their signs.
fn compare_sizes(a: &Decimal, b: &Decimal) -> Ordering
    ensures { result ≡ nat_cmp (size_beside a.now b.now) (size_beside b.now a.now) }
{
    let a_power = a.up() as u32 + b.down() as u32;
    let b_power = b.up() as u32 + a.down() as u32;
    if b_power <= a_power {
        compare_scaled(a.digits(), a_power - b_power, b.digits())
    } else {
        compare_scaled(b.digits(), b_power - a_power, a.digits()).reverse()
    }
}

// The order of `digits × 10 ^ power` and `other`.
fn compare_scaled(digits: u128, power: u32, other: u128) -> Ordering
    requires { other < 10 ^ 38 }
    ensures { result ≡ nat_cmp (digits * 10 ^ power) other }
{
    match scaled(digits, power) {
        Some(product) => product.cmp(&other),
        None => Ordering::Greater,
    }
}

// `digits × 10 ^ power`, where 128 bits hold it.
fn scaled(digits: u128, power: u32) -> Option<u128>
    ensures { SomeIff result (digits * 10 ^ power < 2 ^ 128) (digits * 10 ^ power) }
{
    if digits == 0 {
        return Some(0);
    }
    if power > 38 {
        return None;
    }
    digits.checked_mul(10u128.pow(power))
}

/// Whether the first number is below the second, both infinities included. It is false where either
/// is NaN.
#[tactic(auto, unfolding(crate::specs::Order::less))]
pub fn less(a: &Number, b: &Number) -> bool
    ensures { result ≡ less a.now b.now }
{
    match (a, b) {
        (Number::Finite(a), Number::Finite(b)) => compare(a, b).is_lt(),
        (Number::Finite(_), Number::Up) | (Number::Down, Number::Finite(_) | Number::Up) => true,
        _ => false,
    }
}

/// The whole number from 0 to 2^64 - 1 that the value is, where it is one.
#[tactic(auto, unfolding(crate::specs::Order::whole))]
pub fn whole(n: &Number) -> Option<u64>
    ensures { result ≡ whole n.now }
{
    let Number::Finite(d) = n else {
        return None;
    };
    if d.negative() {
        return None;
    }
    if d.down() > 0 {
        return None;
    }
    floor_in_64_bits(d, 0)
}

/// A value in seconds as whole nanoseconds, rounded down, where it isn't negative and 64 bits hold it.
#[tactic(auto, unfolding(crate::specs::Order::nanos))]
pub fn nanos(n: &Number) -> Option<u64>
    ensures { result ≡ nanos n.now }
{
    match n {
        Number::Finite(d) if !d.negative() => floor_in_64_bits(d, 9),
        _ => None,
    }
}

// The greatest whole number not above `10 ^ more` times the value without its sign, where 64 bits hold it.
fn floor_in_64_bits(d: &Decimal, more: u32) -> Option<u64>
    requires { more < 10 }
    ensures { result ≡ in_64_bits (floor_of d.now.digits (d.now.up + more) d.now.down) }
{
    let up = d.up() as u32 + more;
    let down = d.down() as u32;
    if down <= up {
        return scaled_in_64_bits(d.digits(), up - down);
    }
    if down - up > 38 {
        return Some(0);
    }
    in_64_bits(d.digits() / 10u128.pow(down - up))
}

// `digits × 10 ^ power`, where 64 bits hold it.
fn scaled_in_64_bits(digits: u128, power: u32) -> Option<u64>
    ensures { result ≡ in_64_bits (digits * 10 ^ power) }
{
    match scaled(digits, power) {
        Some(product) => in_64_bits(product),
        None => None,
    }
}

// The number, where 64 bits hold it.
fn in_64_bits(n: u128) -> Option<u64>
    ensures { result ≡ in_64_bits n }
{
    if n <= u64::MAX as u128 {
        Some(n as u64)
    } else {
        None
    }
}
