//! Blanks, which may stand between any two parts of a line (Prometheus text format 0.0.4, "Line format").
ghost use Rattle.std.specs.Prelude.{◌≡◌, ◌-◌, length, take, IsUtf8};
ghost use Rattle.std.specs.List.{suffix_len};
ghost use Rattle.label_sets.specs.Names.{is_blank};
ghost use Rattle.page_model.specs.TextItems.{is_not_blank, trimmed, without_leading_blanks};
ghost use Rattle.page_model.specs.TextReading.{at_blank, begins_blank};

use line_scan::{Blank, CharClass, front_len};

/// A character that is no blank: words are made of these.
pub(crate) struct NotBlank;

impl CharClass for NotBlank {
    ghost test = { is_not_blank };

    fn has(byte: u8) -> bool {
        !Blank::has(byte)
    }
}

/// Whether a blank stands at the front.
pub(crate) fn begins_blank(bytes: &[u8]) -> bool
    ensures { result ≡ begins_blank bytes.now }
{
    match bytes.split_first() {
        Some((first, _)) => Blank::has(*first),
        None => false,
    }
}

/// Whether bytes are empty or begin with a blank.
pub(crate) fn at_blank(bytes: &[u8]) -> bool
    ensures { result ≡ at_blank bytes.now }
{
    match bytes.split_first() {
        Some((first, _)) => Blank::has(*first),
        None => true,
    }
}

/// The bytes without the blanks at the front. Most often there are none.
pub(crate) fn without_leading_blanks(bytes: &[u8]) -> &[u8]
    ensures value { result.now ≡ without_leading_blanks bytes.now }
    ensures utf8 { IsUtf8 bytes.now → IsUtf8 result.now }
{
    if !begins_blank(bytes) {
        return bytes;
    }
    &bytes[front_len::<Blank>(bytes)..]
}

/// The bytes without the blanks at the end.
fn without_trailing_blanks(bytes: &[u8]) -> &[u8]
    ensures value { result.now ≡ take (length bytes.now - suffix_len is_blank bytes.now) bytes.now }
    ensures utf8 { IsUtf8 bytes.now → IsUtf8 result.now }
{
    let mut end = bytes.len();
    while end > 0 && Blank::has(bytes[end - 1]) {
        end -= 1;
    }
    &bytes[..end]
}

/// The bytes without the blanks at both ends.
#[tactic(auto, unfolding(page_model::specs::TextItems::trimmed))]
pub(crate) fn trimmed(line: &[u8]) -> &[u8]
    ensures value { result.now ≡ trimmed line.now }
    ensures utf8 { IsUtf8 line.now → IsUtf8 result.now }
{
    without_trailing_blanks(without_leading_blanks(line))
}
