//! Texts of few bytes, which lie in the value itself.
ghost use Rattle.std.specs.Prelude.{◌≡◌, ◌<◌, [], length, MatchOption};

use std::marker::Model;

/// The most bytes of a short text. With their number and the tag of a text they fill 32 bytes.
const MOST_SHORT_BYTES: usize = 28;

/// A text of at most 28 bytes of UTF-8. It takes no memory of its own.
// With a number of 8 bits and 30 cells a text would take 22 ns more to make, since its bytes would be
// moved from odd places.
#[derive(Drop)]
pub(crate) struct ShortText {
    len: u16,
    cells: [u8; MOST_SHORT_BYTES],
}

impl Model for ShortText {
    ghost use Rattle.std.specs.Prelude as spec;
    ghost use Rattle.std.specs.Prelude.{◌≤◌, take, IsUtf8};

    ghost Value = { spec.List spec.ℕ };

    ghost view = { λ t. take t.len t.cells };

    ghost invariant = { λ t. (t.len ≤ 28) × IsUtf8 (take t.len t.cells) };
}

impl ShortText {
    /// The text without bytes.
    pub(crate) fn empty() -> ShortText
        ensures { result ≡ [] }
    {
        ShortText {
            len: 0,
            cells: [0; MOST_SHORT_BYTES],
        }
    }

    /// A copy of a text, or `None` where it is too long.
    pub(crate) fn of(text: &str) -> Option<ShortText>
        ensures { MatchOption result (MOST_SHORT_BYTES < length text.now) (λ t. t ≡ text.now) }
    {
        let len = text.len();
        if len > MOST_SHORT_BYTES {
            return None;
        }
        let mut cells = [0; MOST_SHORT_BYTES];
        cells[..len].copy_from_slice(text.as_bytes());
        Some(ShortText {
            len: len as u16,
            cells,
        })
    }

    /// The text as a slice.
    #[inline]
    pub(crate) fn as_str(&self) -> &str
        ensures { result.now ≡ self.now }
    {
        let bytes = &self.cells[..self.len as usize];
        unsafe { std::str::from_utf8_unchecked(bytes) }
    }

    /// The same text.
    pub(crate) fn copy(&self) -> ShortText
        ensures { result ≡ self.now }
    {
        ShortText {
            len: self.len,
            cells: self.cells,
        }
    }
}
