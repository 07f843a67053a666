//! Numbers as literals.
ghost use Rattle.std.specs.Prelude.{◌≡◌, ◌≢◌, ◌+◌, ◌*◌, ◌^◌, ◌<◌, ◌≤◌, ◌++◌, length};
ghost use Rattle.std.specs.Fmt.{decimal};
ghost use Rattle.exact_decimal.specs.Literals.{sign_text, pointed, plain_text, difference_text, exponent_text, is_plain, size_text, decimal_text, number_json, number_text};

use crate::buffer::Buffer;
use crate::decimal::Decimal;
use crate::number::Number;

/// Prints the JSON literal of a number in place of what the buffer held.
///
/// A decimal is a number of RFC 8259, section 6: plain where its leading digit stands at a power of
/// ten from -5 to 20, else with an exponent. The infinities and NaN are the strings of ProtoJSON.
#[tactic(auto, unfolding(crate::specs::Literals::number_json))]
pub fn print(n: &Number, to: &mut Buffer)
    ensures { to.new ≡ number_json n.now }
{
    to.clear();
    match n {
        Number::Finite(d) => push_decimal(d, to),
        Number::Up => to.push(b"\"Infinity\""),
        Number::Down => to.push(b"\"-Infinity\""),
        Number::NotANumber => to.push(b"\"NaN\""),
    }
}

/// Prints a number of OpenMetrics text in place of what the buffer held: the same decimals as
/// [`print`], and `+Inf`, `-Inf` and `NaN`.
#[tactic(auto, unfolding(crate::specs::Literals::number_text))]
pub fn print_open(n: &Number, to: &mut Buffer)
    ensures { to.new ≡ number_text n.now }
{
    to.clear();
    match n {
        Number::Finite(d) => push_decimal(d, to),
        Number::Up => to.push(b"+Inf"),
        Number::Down => to.push(b"-Inf"),
        Number::NotANumber => to.push(b"NaN"),
    }
}

fn push_decimal(d: &Decimal, to: &mut Buffer)
    requires { length to.old ≡ 0 }
    ensures { to.new ≡ to.old ++ decimal_text d.now }
{
    let (up, down) = (d.up() as usize, d.down() as usize);
    push_sign(d.negative(), to);
    let digits = d.digits();
    let mut printed = itoa::Buffer::new();
    // 64 bits print three times as fast as 128.
    if digits <= u64::MAX as u128 {
        push_size(printed.format(digits as u64).as_bytes(), up, down, to);
    } else {
        push_size(printed.format(digits).as_bytes(), up, down, to);
    }
}

#[tactic(auto, unfolding(crate::specs::Literals::sign_text))]
fn push_sign(negative: bool, to: &mut Buffer)
    requires { length to.old + 1 ≤ 64 }
    ensures { to.new ≡ to.old ++ sign_text negative }
{
    if negative {
        to.push(b"-");
    }
}

#[tactic(auto, unfolding(crate::specs::Literals::size_text))]
fn push_size(digits: &[u8], up: usize, down: usize, to: &mut Buffer)
    requires some { 0 < length digits.now }
    requires small { up + down + length digits.now < 2 ^ 32 }
    requires one_power { up * down ≡ 0 }
    requires room { length to.old + length (size_text digits.now up down) ≤ 64 }
    ensures { to.new ≡ to.old ++ size_text digits.now up down }
{
    if prints_plainly(digits.len(), up, down) {
        push_plain(digits, up, down, to);
    } else {
        push_exponent(digits, up, down, to);
    }
}

#[tactic(auto, unfolding(crate::specs::Literals::is_plain))]
pub(crate) fn prints_plainly(places: usize, up: usize, down: usize) -> bool
    requires some { 0 < places }
    requires small { up + down + places < 2 ^ 32 }
    ensures { result ≡ is_plain places up down }
{
    let leading = up + (places - 1);
    down <= leading + 5 && leading <= down + 20
}

fn push_plain(digits: &[u8], up: usize, down: usize, to: &mut Buffer)
    requires some { 0 < length digits.now }
    requires one_power { up * down ≡ 0 }
    requires room { length to.old + length (plain_text digits.now up down) ≤ 64 }
    ensures { to.new ≡ to.old ++ plain_text digits.now up down }
{
    if down < digits.len() {
        push_pointed(digits, digits.len() - down, to);
        to.push_zeros(up);
    } else {
        to.push(b"0.");
        to.push_zeros(down - digits.len());
        to.push(digits);
    }
}

#[tactic(auto, unfolding(crate::specs::Literals::exponent_text))]
fn push_exponent(digits: &[u8], up: usize, down: usize, to: &mut Buffer)
    requires some { 0 < length digits.now }
    requires small { up + down + length digits.now < 2 ^ 32 }
    requires room { length to.old + length (exponent_text digits.now up down) ≤ 64 }
    ensures { to.new ≡ to.old ++ exponent_text digits.now up down }
{
    push_pointed(digits, 1, to);
    to.push(b"e");
    push_difference(up + (digits.len() - 1), down, to);
}

#[tactic(auto, unfolding(crate::specs::Literals::pointed))]
fn push_pointed(digits: &[u8], before: usize, to: &mut Buffer)
    requires { length to.old + length (pointed digits.now before) ≤ 64 }
    ensures { to.new ≡ to.old ++ pointed digits.now before }
{
    if digits.len() <= before {
        to.push(digits);
    } else {
        to.push(&digits[..before]);
        to.push(b".");
        to.push(&digits[before..]);
    }
}

#[tactic(auto, unfolding(crate::specs::Literals::difference_text))]
fn push_difference(up: usize, down: usize, to: &mut Buffer)
    requires { length to.old + length (difference_text up down) ≤ 64 }
    ensures { to.new ≡ to.old ++ difference_text up down }
{
    let mut printed = itoa::Buffer::new();
    if down <= up {
        to.push(printed.format(up - down).as_bytes());
    } else {
        to.push(b"-");
        to.push(printed.format(down - up).as_bytes());
    }
}
