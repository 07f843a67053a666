//! Words in values of fields, in any case of letters (RFC 9110, sections 5.1, 8.3 and 8.6).
ghost use Rattle.std.specs.Prelude.{◌≡◌, ◌==◌, ◌<◌, ◌≤◌, true, not, length, take_while, map};
ghost use Rattle.std.specs.Char.{to_ascii_lowercase, is_ascii_digit, digit_value};
ghost use Rattle.std.specs.List.{list_all};
ghost use Rattle.std.specs.Str.Parse.{digits_value};
ghost use Rattle.httparse.specs.Grammar.{is_ows, skip_ows, trim_ows};
ghost use Rattle.label_sets.specs.Lists.{when_true};
ghost use Rattle.http_talk.specs.Heads.{is_word, is_length, media_type};

/// Whether bytes are this word, which has small letters, whatever the case of theirs.
#[tactic(auto, using(crate::proofs::WordTests::same_word))]
pub(crate) fn is_word(word: &[u8], bytes: &[u8]) -> bool
    requires { map to_ascii_lowercase word.now ≡ word.now }
    ensures { result ≡ is_word word.now bytes.now }
{
    bytes.eq_ignore_ascii_case(word)
}

/// Whether a byte is a space or a tab.
fn is_blank(byte: u8) -> bool
    ensures { result ≡ is_ows byte }
{
    matches!(byte, b' ' | b'\t')
}

/// The bytes from the first that is no blank.
fn skip_blanks(bytes: &[u8]) -> &[u8]
    ensures { result.now ≡ skip_ows bytes.now }
{
    let mut at = 0;
    while at < bytes.len() && is_blank(bytes[at]) {
        at += 1;
    }
    &bytes[at..]
}

/// The bytes without the blanks at both ends.
#[tactic(auto, unfolding(httparse::specs::Grammar::trim_ows))]
fn trim(bytes: &[u8]) -> &[u8]
    ensures { result.now ≡ trim_ows bytes.now }
{
    let front = skip_blanks(bytes);
    let mut end = front.len();
    while end > 0 && is_blank(front[end - 1]) {
        end -= 1;
    }
    &front[..end]
}

/// The bytes in front of the first semicolon.
fn before_semicolon(bytes: &[u8]) -> &[u8]
    ensures { result.now ≡ take_while (λ c. not (c == 59)) bytes.now }
{
    let mut count = 0;
    while count < bytes.len() && bytes[count] != b';' {
        count += 1;
    }
    &bytes[..count]
}

/// A media type without its parameters.
pub(crate) fn media_type(value: &[u8]) -> &[u8]
    ensures { result.now ≡ media_type value.now }
{
    trim(before_semicolon(value))
}

/// The most digits of a length.
const MOST_DIGITS: usize = 18;

/// The number of a length, which is 1 to 18 digits.
pub(crate) fn length_of(value: &[u8]) -> Option<u64>
    ensures { result ≡ when_true (is_length value.now) (digits_value 10 value.now) }
{
    if value.is_empty() || value.len() > MOST_DIGITS {
        return None;
    }
    digits_number(value)
}

/// The number of at most 18 digits; nothing where some byte is none.
fn digits_number(digits: &[u8]) -> Option<u64>
    requires { length digits.now ≤ 18 }
    ensures { result ≡ when_true (list_all is_ascii_digit digits.now) (digits_value 10 digits.now) }
{
    let mut number: u64 = 0;
    for digit in digits {
        if !digit.is_ascii_digit() {
            return None;
        }
        number = number * 10 + digit_value(*digit);
    }
    Some(number)
}

/// The number of a digit.
fn digit_value(digit: u8) -> u64
    requires { is_ascii_digit digit ≡ true }
    ensures value { result ≡ digit_value digit }
    ensures small { result < 10 }
{
    u64::from(digit - b'0')
}
