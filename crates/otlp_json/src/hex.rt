//! Hexadecimal digits.

ghost use Rattle.std.specs.Prelude.{◌≡◌, ◌^◌, ◌<◌, ◌≤◌, false};
ghost use Rattle.std.specs.Fmt.{digit_glyph};
ghost use Rattle.otlp_json.specs.Texts.{hex_text};

/// The hexadecimal digit of a number below 16, in lower case.
pub(crate) fn hex_digit(n: u8) -> u8
    requires { n < 16 }
    ensures { result ≡ digit_glyph false n }
{
    if n < 10 { b'0' + n } else { b'a' + (n - 10) }
}

/// A number in `N` hexadecimal digits, with zeros in front.
pub(crate) fn hex_digits<const N: usize>(n: u128) -> [u8; N]
    requires some { 0 < N }
    requires few { N ≤ 32 }
    requires fits { n < 16 ^ N }
    ensures { result ≡ hex_text N n }
{
    let mut digits = [b'0'; N];
    let mut left = n;
    for count in 0..N {
        digits[N - 1 - count] = hex_digit((left % 16) as u8);
        left /= 16;
    }
    digits
}
