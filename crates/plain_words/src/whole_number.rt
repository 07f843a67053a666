//! Whole numbers in words.
ghost use Rattle.std.specs.Prelude.{◌≡◌, ◌≢◌, ◌≤◌, ℕ, IfSome, IfNone};
ghost use Rattle.std.specs.Fmt.{decimal};
ghost use Rattle.plain_words.specs.WholeNumbers.{number_in};

/// The number that a word writes, where it is at most `most`.
fn written(word: &[u8], most: u64) -> Option<u64>
    ensures found { IfSome result (λ n. (word.now ≡ decimal n) × (n ≤ most)) }
    ensures none { IfNone result ((n : ℕ) → n ≤ most → word.now ≢ decimal n) }
{
    let text = match std::str::from_utf8(word) {
        Ok(text) => text,
        Err(_) => return None,
    };
    let number = match text.parse::<u64>() {
        Ok(number) => number,
        Err(_) => return None,
    };
    if number > most {
        return None;
    }
    let mut buffer = itoa::Buffer::new();
    if buffer.format(number) != text {
        return None;
    }
    Some(number)
}

/// The number that a word writes in decimal digits without a sign or a leading zero, where it is at
/// most `most`.
///
/// # Example
///
/// ```rust
/// assert_eq!(rt; number(b"5", 5), Some(5));
/// assert_eq!(rt; number(b"6", 5), None);
/// assert_eq!(rt; number(b"05", 5), None);
/// ```
pub fn number(word: &[u8], most: u64) -> Option<u64>
    ensures found { IfSome result (λ n. (word.now ≡ decimal n) × (n ≤ most)) }
    ensures none { IfNone result ((n : ℕ) → n ≤ most → word.now ≢ decimal n) }
    ensures only { result ≡ number_in most word.now }
{
    written(word, most)
}
