//! Cuts bytes in two (Prometheus text format 0.0.4, "Line format"; OpenMetrics 1.0, "ABNF").
ghost use Rattle.std.specs.Prelude.{◌≡◌, ◌∷◌, [], ◌<◌, ◌≤◌, length, false, take_while, IfSome, MatchOption, IsUtf8};
ghost use Rattle.std.specs.Option.{option_copied};
ghost use Rattle.std.specs.List.{prefix_len};
ghost use Rattle.std.specs.Str.{bytes_eq};
ghost use Rattle.label_sets.specs.Lists.{rest_while, behind};
ghost use Rattle.line_scan.specs.Cuts.{IsNamed};

use crate::chars::{CharClass, NameClass};

/// Bytes cut in two.
#[derive(Clone, Copy)]
pub struct Cut<'a> {
    pub front: &'a [u8],
    pub rest: &'a [u8],
}

/// How many characters of a class stand at the front.
pub fn front_len<C: CharClass>(bytes: &[u8]) -> usize
    ensures within { result ≤ length bytes.now }
    ensures count { result ≡ prefix_len C.test bytes.now }
{
    let mut count = 0;
    for byte in bytes {
        if !C::has(*byte) {
            return count;
        }
        count += 1;
    }
    count
}

/// The characters of a class at the front, and the rest.
pub fn cut_chars<C: CharClass>(bytes: &[u8]) -> Cut<'_>
    ensures front { result.front.now ≡ take_while C.test bytes.now }
    ensures rest { result.rest.now ≡ rest_while C.test bytes.now }
{
    let count = front_len::<C>(bytes);
    Cut {
        front: &bytes[..count],
        rest: &bytes[count..],
    }
}

/// The name at the front and the rest; nothing where no name of that sort is there.
///
/// # Example
///
/// ```rust
/// let cut = cut_name::<MetricChar>(b"a:b{c")?;
/// assert_eq!(rt; (cut.front, cut.rest), (b"a:b".as_slice(), b"{c".as_slice()));
/// assert!(rt; cut_name::<MetricChar>(b"1a").is_none());
/// ```
pub fn cut_name<N: NameClass>(bytes: &[u8]) -> Option<Cut<'_>>
    ensures { MatchOption result (N.is_name (take_while N.test bytes.now) ≡ false) (IsNamed N.is_name N.test bytes.now) }
{
    let cut = cut_chars::<N>(bytes);
    match cut.front.split_first() {
        Some((first, _)) if N::starts(*first) => Some(cut),
        _ => None,
    }
}

/// What stands behind this byte, where the bytes begin with it.
pub fn behind(byte: u8, bytes: &[u8]) -> Option<&[u8]>
    ensures value { option_copied result ≡ behind (byte ∷ []) bytes.now }
    ensures utf8 { byte < 128 → IsUtf8 bytes.now → IfSome result (λ rest. IsUtf8 rest.now) }
{
    match bytes.split_first() {
        Some((first, rest)) if *first == byte => Some(rest),
        _ => None,
    }
}

/// What stands behind this text, where the bytes begin with it.
pub fn behind_text<'a>(front: &str, bytes: &'a [u8]) -> Option<&'a [u8]>
    ensures value { option_copied result ≡ behind front.now bytes.now }
    ensures utf8 { IsUtf8 bytes.now → IfSome result (λ rest. IsUtf8 rest.now) }
{
    if !bytes.starts_with(front.as_bytes()) {
        return None;
    }
    Some(&bytes[front.len()..])
}

/// Whether bytes are this word.
pub fn is_word(bytes: &[u8], word: &str) -> bool
    ensures { result ≡ bytes_eq bytes.now word.now }
{
    bytes == word.as_bytes()
}
