//! How long printed literals are, found from the count of digits and the powers alone.

ghost use Rattle.std.specs.Prelude.{◌≡◌, ℕ, List, ◌+◌, ◌*◌, ◌^◌, ◌<◌, ◌≤◌, length};
ghost use Rattle.std.specs.Fmt.{decimal};
ghost use Rattle.exact_decimal.specs.Literals.{sign_text, pointed, plain_text, difference_text, exponent_text, IsSize, most_beside, size_text, decimal_text, number_json};

use crate::decimal::Decimal;
use crate::number::Number;
use crate::printing::prints_plainly;

/// How many bytes [`print`](crate::print) prints of a number.
#[tactic(auto, unfolding(crate::specs::Literals::number_json))]
pub fn printed_len(n: &Number) -> usize
    ensures { result ≡ length (number_json n.now) }
{
    match n {
        Number::Finite(d) => decimal_len(d),
        Number::Up => b"\"Infinity\"".len(),
        Number::Down => b"\"-Infinity\"".len(),
        Number::NotANumber => b"\"NaN\"".len(),
    }
}

fn decimal_len(d: &Decimal) -> usize
    ensures { result ≡ length (decimal_text d.now) }
{
    let places = wide_digit_count(d.digits());
    sign_len(d.negative()) + size_len(places, d.up() as usize, d.down() as usize)
}

/// How many digits a number has.
fn digit_count(n: u64) -> usize
    ensures digits { result ≡ length (decimal n) }
    ensures some { 1 ≤ result }
    ensures few { result ≤ 20 }
{
    match n.checked_ilog10() {
        Some(power) => power as usize + 1,
        None => 1,
    }
}

/// How many digits a number has. Most numbers fit 64 bits, whose logarithm takes less time.
fn wide_digit_count(n: u128) -> usize
    ensures digits { result ≡ length (decimal n) }
    ensures some { 1 ≤ result }
    ensures few { result ≤ 39 }
{
    if n <= u64::MAX as u128 {
        return digit_count(n as u64);
    }
    n.ilog10() as usize + 1
}

#[tactic(auto, unfolding(crate::specs::Literals::sign_text))]
fn sign_len(negative: bool) -> usize
    ensures sign { result ≡ length (sign_text negative) }
    ensures few { result ≤ 1 }
{
    if negative { 1 } else { 0 }
}

#[tactic(auto, unfolding(crate::specs::Literals::size_text))]
fn size_len(places: usize, up: usize, down: usize) -> usize
    requires { IsSize places up down }
    ensures size { (digits : List ℕ) → length digits ≡ places → result ≡ length (size_text digits up down) }
    ensures few { result ≤ places + up + down + most_beside }
{
    if prints_plainly(places, up, down) {
        plain_len(places, up, down)
    } else {
        exponent_len(places, up, down)
    }
}

fn plain_len(places: usize, up: usize, down: usize) -> usize
    requires { IsSize places up down }
    ensures plain { (digits : List ℕ) → length digits ≡ places → result ≡ length (plain_text digits up down) }
    ensures few { result ≤ places + up + down + most_beside }
{
    if down < places {
        pointed_len(places, places - down) + up
    } else {
        b"0.".len() + down
    }
}

#[tactic(auto, unfolding(crate::specs::Literals::exponent_text))]
fn exponent_len(places: usize, up: usize, down: usize) -> usize
    requires some { 0 < places }
    requires small { up + down + places < 2 ^ 32 }
    ensures exponent { (digits : List ℕ) → length digits ≡ places → result ≡ length (exponent_text digits up down) }
    ensures few { result ≤ places + up + down + most_beside }
{
    pointed_len(places, 1) + b"e".len() + difference_len(up + (places - 1), down)
}

fn pointed_len(places: usize, before: usize) -> usize
    requires { places < 2 ^ 32 }
    ensures pointed { (digits : List ℕ) → length digits ≡ places → result ≡ length (pointed digits before) }
    ensures few { result ≤ places + 1 }
{
    if places <= before { places } else { places + 1 }
}

#[tactic(auto, unfolding(crate::specs::Literals::difference_text))]
fn difference_len(up: usize, down: usize) -> usize
    ensures difference { result ≡ length (difference_text up down) }
    ensures few { result ≤ 21 }
{
    if down <= up {
        digit_count((up - down) as u64)
    } else {
        b"-".len() + digit_count((down - up) as u64)
    }
}
