//! Texts in two parts.
ghost use Rattle.std.specs.Prelude.{◌≡◌, option_map};
ghost use Rattle.plain_words.specs.HeadLines as spec;

use memchr::memchr;

/// What stands before the first such byte of a text, and what behind it.
#[tactic(auto, unfolding(crate::specs::HeadLines::cut_first))]
pub fn cut_first(byte: u8, text: &[u8]) -> Option<(&[u8], &[u8])>
    ensures { option_map (λ parts. (parts.0.now, parts.1.now)) result ≡ spec.cut_first byte text.now }
{
    let at = match memchr(byte, text) {
        Some(at) => at,
        None => return None,
    };
    Some((&text[..at], &text[at + 1..]))
}
