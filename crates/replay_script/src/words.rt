//! The words of head lines.
ghost use Rattle.std.specs.Prelude.{◌≡◌, ℕ, List, length, ◌≢◌};
ghost use Rattle.replay_script.specs.ScriptReading as spec;
ghost use Rattle.replay_script.specs.LineWords.{AreWordsOf};

use crate::ending::Ending;
use crate::header::HeaderLine;
use page_model::Format;
use plain_words::cut_first;

/// The words of a line, where there are as many as a head line has.
#[derive(Clone, Copy)]
pub(crate) enum Words<'a> {
    Two(&'a [u8], &'a [u8]),
    Four(&'a [u8], &'a [u8], &'a [u8], &'a [u8]),
    Other,
}

/// The words of a line, with a space between each two.
pub(crate) fn split_words(line: &[u8]) -> Words<'_>
    ensures { AreWordsOf line.now result }
{
    let (first, rest) = match cut_first(b' ', line) {
        Some(parts) => parts,
        None => return Words::Other,
    };
    let (second, rest) = match cut_first(b' ', rest) {
        Some(parts) => parts,
        None => return Words::Two(first, rest),
    };
    let (third, fourth) = match cut_first(b' ', rest) {
        Some(parts) => parts,
        None => return Words::Other,
    };
    match cut_first(b' ', fourth) {
        Some(_) => Words::Other,
        None => Words::Four(first, second, third, fourth),
    }
}

/// The format that a word names.
#[tactic(auto, unfolding(crate::specs::ScriptReading::format_in))]
pub fn format_named(word: &[u8]) -> Option<Format>
    ensures { result ≡ spec.format_in word.now }
{
    if word == b"text".as_slice() {
        return Some(Format::Text);
    }
    if word == b"openmetrics".as_slice() {
        return Some(Format::OpenMetrics);
    }
    None
}

/// The ending that a word names.
#[tactic(auto, unfolding(crate::specs::ScriptReading::ending_in))]
pub(crate) fn ending_named(word: &[u8]) -> Option<Ending>
    ensures { result ≡ spec.ending_in word.now }
{
    if word == b"connect".as_slice() {
        return Some(Ending::ConnectFails);
    }
    if word == b"write".as_slice() {
        return Some(Ending::WriteFails);
    }
    if word == b"read".as_slice() {
        return Some(Ending::ReadFails);
    }
    if word == b"ended".as_slice() {
        return Some(Ending::PeerEnds);
    }
    None
}

/// The header line that a word names.
#[tactic(auto, unfolding(crate::specs::ScriptReading::header_line_in, crate::specs::HeaderLines::header_row))]
pub(crate) fn header_line(word: &[u8]) -> Option<HeaderLine>
    ensures { result ≡ spec.header_line_in word.now }
{
    if word == b"keep".as_slice() {
        return Some(HeaderLine::Keep);
    }
    if word == b"tries".as_slice() {
        return Some(HeaderLine::Tries);
    }
    if word == b"limit".as_slice() {
        return Some(HeaderLine::Limit);
    }
    if word == b"maxpage".as_slice() {
        return Some(HeaderLine::MaxPage);
    }
    if word == b"cut".as_slice() {
        return Some(HeaderLine::Cut);
    }
    if word == b"honor".as_slice() {
        return Some(HeaderLine::Honor);
    }
    if word == b"rounds".as_slice() {
        return Some(HeaderLine::Rounds);
    }
    None
}
