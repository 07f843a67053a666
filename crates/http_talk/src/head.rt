//! The head of a reply, read by `httparse` from its first bytes until it is there.
ghost use Rattle.std.specs.Prelude.{◌≡◌, ℕ, List, length, take};
ghost use Rattle.http_talk.specs.HeadFeeding.{IsParsed, IsFoundWithin, IsHeadOf};
ghost use Rattle.http_talk.specs.Heads.{Shows, head_limit, field_limit};

use crate::long_head::parse_long_head;
use crate::seen::HeadSeen;
use httparse::spans::{EMPTY_HEADER_SPAN, HeaderSpan, ResponseSpans, parse_response};
use httparse::{Error, Status};

/// What bytes say of a head.
#[derive(Clone, Copy)]
pub(crate) enum Head {
    More,
    Bad,
    Found(ResponseSpans),
}

/// The most bytes of a head, of a request or of a reply.
pub const HEAD_LIMIT: usize = 16_384;

/// The most fields of a head.
pub const FIELD_LIMIT: usize = 64;

/// What these bytes say of a head.
fn parse_head(bytes: &[u8], spans: &mut [HeaderSpan]) -> Head
    requires { length spans.old ≡ field_limit }
    ensures { IsParsed bytes.now spans.new result }
{
    match parse_response(bytes, spans) {
        Ok(Status::Complete(head)) => Head::Found(head),
        Ok(Status::Partial) => Head::More,
        Err(Error::TooManyHeaders) => parse_long_head(bytes),
        Err(_) => Head::Bad,
    }
}

/// What the bytes got say of a head, by the first of them, as many as a head may have.
pub(crate) fn head_of(front: &[u8], spans: &mut [HeaderSpan]) -> Head
    requires { length spans.old ≡ field_limit }
    ensures within { IsFoundWithin front.now spans.new result }
    ensures head { (got : List ℕ) → front.now ≡ take head_limit got → IsHeadOf got front.now spans.new result }
{
    let full = front.len() == HEAD_LIMIT;
    match parse_head(front, spans) {
        Head::More => { if full { Head::Bad } else { Head::More } }
        Head::Bad => Head::Bad,
        Head::Found(head) => Head::Found(head),
    }
}

/// What the bytes at the front of a post's reply hold. It takes no memory.
pub fn status_of(head: &[u8]) -> HeadSeen
    ensures { Shows head.now result }
{
    let front = &head[..head.len().min(HEAD_LIMIT)];
    let mut spans = [EMPTY_HEADER_SPAN; FIELD_LIMIT];
    match head_of(front, &mut spans) {
        Head::More => HeadSeen::More,
        Head::Bad => HeadSeen::Bad,
        Head::Found(found) => HeadSeen::Status(found.code),
    }
}
