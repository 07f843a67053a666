//! A head of more fields than one may have: each line is read by itself, so no table of them is wanted.
ghost use Rattle.std.specs.Prelude.{◌≡◌, List};
ghost use Rattle.httparse.specs.Spans.{ResponseExceeds, ResponseOverflows};
ghost use Rattle.httparse.specs.declared.spans.HeaderSpan.{HeaderSpan as AnySpan};
ghost use Rattle.http_talk.specs.HeadFeeding.{IsParsed};
ghost use Rattle.http_talk.specs.Heads.{field_limit};
ghost use Rattle.http_talk.specs.LongHeads.{behind_blanks, from_line_end, behind_line};

use crate::head::Head;
use httparse::spans::{EMPTY_HEADER_SPAN, parse_headers};
use httparse::{Error, Status};

/// The bytes from the first on that ends no line.
fn behind_blanks(bytes: &[u8]) -> &[u8]
    ensures { result.now ≡ behind_blanks bytes.now }
{
    let mut at = 0;
    while at < bytes.len() && (bytes[at] == b'\r' || bytes[at] == b'\n') {
        at += 1;
    }
    &bytes[at..]
}

/// The bytes from the first line feed on.
fn from_line_end(bytes: &[u8]) -> &[u8]
    ensures { result.now ≡ from_line_end bytes.now }
{
    let mut at = 0;
    while at < bytes.len() && bytes[at] != b'\n' {
        at += 1;
    }
    &bytes[at..]
}

/// The bytes behind the first line.
fn behind_line(bytes: &[u8]) -> &[u8]
    ensures { result.now ≡ behind_line bytes.now }
{
    let end = from_line_end(bytes);
    match end.split_first() {
        Some((_, behind)) => behind,
        None => end,
    }
}

/// What bytes say of a head, where a head at the front has more fields than one may have, and the lines of so many
/// are there.
pub(crate) fn parse_long_head(bytes: &[u8]) -> Head
    requires there { ResponseExceeds field_limit bytes.now }
    requires many { ResponseOverflows field_limit bytes.now }
    ensures { (spans : List AnySpan) → IsParsed bytes.now spans result }
{
    let mut no_spans = [EMPTY_HEADER_SPAN; 0];
    let mut rest = behind_line(behind_blanks(bytes));
    'lines: loop {
        match parse_headers(rest, &mut no_spans) {
            Ok(Status::Complete(_)) => return Head::Bad,
            Ok(Status::Partial) => return Head::More,
            Err(Error::TooManyHeaders) => rest = behind_line(rest),
            Err(_) => return Head::Bad,
        }
    }
}
