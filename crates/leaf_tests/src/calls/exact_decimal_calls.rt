//! Numbers of tokens: their order, the whole numbers and the nanoseconds among them, and their literals.
use exact_decimal::{
    Buffer, Number, compare, less, nanos, print, print_open, printed_len, read, whole,
};
use std::cmp::Ordering;

/// The number of a token that is one.
fn number(token: &str) -> Option<Number> {
    read(token.as_bytes()).ok()
}

// Tokens in the order of their values, which Python's fractions gave.
const RISING: &[&str] = &[
    "-inf",
    "-1e308",
    "-99999999999999999999999999999999999999",
    "-99999999999999999999999999999999999998",
    "-1e37",
    "-12345e-2",
    "-123",
    "-1",
    "-1e-1",
    "-12345678901234567890123456789012345678e-437",
    "0",
    "1e-400",
    "2e-400",
    "1e-38",
    "99e-3",
    "1e-1",
    "5e-1",
    "50000000000000000000000000000000000001e-38",
    "1",
    "1e1",
    "105e-1",
    "11",
    "1e2",
    "1001e-1",
    "123e4",
    "1230001",
    "18446744073709551615",
    "18446744073709551616",
    "34028236692093846346337460743176821145e1",
    "34028236692093846346337460743176821146e1",
    "1e39",
    "99999999999999999999999999999999999999e2",
    "1e271",
    "1e308",
    "inf",
];

/// Whether this is the order of two numbers, where both are finite.
fn has_order(a: &Number, b: &Number, order: Ordering) -> bool {
    match (a, b) {
        (Number::Finite(a), Number::Finite(b)) => compare(a, b) == order,
        _ => true,
    }
}

/// Whether two tokens are numbers of this order.
fn are_ordered(low: &str, high: &str, order: Ordering) -> bool {
    match (number(low), number(high)) {
        (Some(a), Some(b)) => less(&a, &b) == order.is_lt() && has_order(&a, &b, order),
        _ => false,
    }
}

/// Whether a token is a number that is neither below NaN nor above it.
fn is_beside_nan(token: &str) -> bool {
    match number(token) {
        Some(n) => !less(&n, &Number::NotANumber) && !less(&Number::NotANumber, &n),
        None => false,
    }
}

/// Whether a token is in order with all of them, of which it is the one at this place, and beside NaN.
fn is_in_place(place: usize, token: &str) -> bool {
    for (other_place, other) in RISING.iter().enumerate() {
        if !are_ordered(token, other, place.cmp(&other_place)) {
            return false;
        }
    }
    is_beside_nan(token)
}

#[test]
fn tokens_rise(rt: HostRuntime) {
    for (place, token) in RISING.iter().enumerate() {
        assert!(rt; is_in_place(place, token), "{token}");
    }
}

// Tokens with the whole number and the nanoseconds that they are, by Python's fractions.
const WHOLE: &[(&str, Option<u64>, Option<u64>)] = &[
    ("0", Some(0), Some(0)),
    ("1", Some(1), Some(1000000000)),
    ("-1", None, None),
    ("7e3", Some(7000), Some(7000000000000)),
    ("123e4", Some(1230000), Some(1230000000000000)),
    ("18446744073709551615", Some(18446744073709551615), None),
    ("18446744073709551616", None, None),
    ("1844674407370955161e1", Some(18446744073709551610), None),
    ("1844674407370955162e1", None, None),
    ("1e19", Some(10000000000000000000), None),
    ("2e19", None, None),
    ("1e20", None, None),
    ("1e308", None, None),
    ("1e-1", None, Some(100000000)),
    ("15e-1", None, Some(1500000000)),
    ("1e-400", None, Some(0)),
    ("99999999999999999999999999999999999999", None, None),
    ("-5e-1", None, None),
    ("inf", None, None),
    ("-inf", None, None),
    ("nan", None, None),
    ("9223372036854775808", Some(9223372036854775808), None),
    ("18446744073709551615e-9", None, Some(18446744073709551615)),
    ("18446744073709551616e-9", None, None),
    ("184467440737095516159e-10", None, Some(u64::MAX)),
    ("1844674407370955161599999e-14", None, Some(u64::MAX)),
    ("15e-10", None, Some(1)),
    ("9e-10", None, Some(0)),
    ("1e-9", None, Some(1)),
    ("1e-10", None, Some(0)),
    ("15e-1", None, Some(1500000000)),
    ("1234567890123456789e-9", None, Some(1234567890123456789)),
    ("12345678901234567891e-10", None, Some(1234567890123456789)),
    ("1e10", Some(10000000000), Some(10000000000000000000)),
    ("2e10", Some(20000000000), None),
    ("18446744073", Some(18446744073), Some(18446744073000000000)),
    ("18446744074", Some(18446744074), None),
    (
        "99999999999999999999999999999999999999e-37",
        None,
        Some(9999999999),
    ),
    (
        "99999999999999999999999999999999999999e-30",
        None,
        Some(99999999999999999),
    ),
    ("1e-38", None, Some(0)),
    ("99999999999999999999999999999999999999e-47", None, Some(0)),
    ("99999999999999999999999999999999999999e-48", None, Some(0)),
    ("12345678901234567890123456789012345678e-437", None, Some(0)),
];

/// The whole number and the nanoseconds of a token that is a number.
fn whole_and_nanos(token: &str) -> Option<(Option<u64>, Option<u64>)> {
    let n = number(token)?;
    Some((whole(&n), nanos(&n)))
}

#[test]
fn tokens_are_whole(rt: HostRuntime) {
    for (token, size, time) in WHOLE {
        assert!(rt;
            whole_and_nanos(token) == Some((*size, *time)),
            "at {token}"
        );
    }
}

// Tokens with their literals in JSON and in a page of OpenMetrics.
const LITERALS: &[(&str, &str, &str)] = &[
    ("-inf", "\"-Infinity\"", "-Inf"),
    (
        "17976931348623157e-17",
        "0.17976931348623157",
        "0.17976931348623157",
    ),
    ("inf", "\"Infinity\"", "+Inf"),
    ("-1e21", "-1e21", "-1e21"),
    ("1e20", "100000000000000000000", "100000000000000000000"),
    ("nan", "\"NaN\"", "NaN"),
    ("-15e-7", "-1.5e-6", "-1.5e-6"),
    ("366e-1", "36.6", "36.6"),
    (
        "-12345678901234567890123456789012345678e-437",
        "-1.2345678901234567890123456789012345678e-400",
        "-1.2345678901234567890123456789012345678e-400",
    ),
    ("0", "0", "0"),
    ("-7", "-7", "-7"),
    ("100", "100", "100"),
    ("1e-5", "0.00001", "0.00001"),
    (
        "18446744073709551616",
        "18446744073709551616",
        "18446744073709551616",
    ),
];

/// Whether a token's literals are these, where a buffer held another one.
fn is_printed(buffer: &mut Buffer, token: &str, json: &str, text: &str) -> bool {
    let Some(n) = number(token) else {
        return false;
    };
    print(&n, buffer);
    let is_json = buffer.bytes() == json.as_bytes();
    print_open(&n, buffer);
    is_json && buffer.bytes() == text.as_bytes() && printed_len(&n) == json.len()
}

#[test]
fn literals_replace_each_other(rt: HostRuntime) {
    let mut buffer = Buffer::new();
    for (token, json, text) in LITERALS {
        assert!(rt; is_printed(&mut buffer, token, json, text), "{token}");
    }
}
