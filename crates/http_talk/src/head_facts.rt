//! What the fields of a head say of its body (RFC 9110, sections 8.3, 8.4 and 8.6; RFC 9112, section 6.1).
ghost use Rattle.std.specs.Prelude.{◌≡◌, ◌≤◌, ℕ, List, false, map, take, length, IfOk, codes, if◌then◌else◌};
ghost use Rattle.httparse.specs.Spans.{IsResponseWithin, header_bytes};
ghost use Rattle.http_talk.specs.HeadFacts.{no_facts, with_coding, with_transfer, media_by, with_media, with_one_length, with_length, with_field, facts_by, IsMedia, AreLengths, AreFactsOf, IsSized, IsFramed, IsStart, IsFirstPart};
ghost use Rattle.httparse.specs.Grammar.{ResponseHead as AnyHead, status_code};
ghost use Rattle.http_talk.specs.Heads.{field_limit, is_word, format_named, format_by, has_other_coding};

use crate::chunk_place::ChunkPlace;
use crate::fault::ReplyFault;
use crate::part::{Part, Start};
use crate::words::{is_word, length_of, media_type};
use httparse::spans::{HeaderSpan, ResponseSpans};
use page_model::Format;

/// What the fields say of transfer codings.
#[derive(Clone, Copy, PartialEq, Eq)]
pub(crate) enum Transfer {
    Absent,
    /// The body comes in chunks alone.
    Chunked,
    Other,
}

/// What they say of the media type.
#[derive(Clone, Copy)]
pub(crate) enum Media {
    Absent,
    Known(Format),
    Other,
}

/// What they say of the length of the body.
#[derive(Clone, Copy)]
pub(crate) enum Lengths {
    Absent,
    One(u64),
    /// One is no length, or two differ.
    Bad,
}

/// What the fields of a head say of its body.
#[derive(Clone, Copy)]
pub(crate) struct HeadFacts {
    /// Whether the body comes in some encoding.
    pub(crate) coded: bool,
    pub(crate) transfer: Transfer,
    pub(crate) media: Media,
    pub(crate) lengths: Lengths,
}

/// With one more value of Content-Encoding.
fn with_coding(coded: bool, value: &[u8]) -> bool
    ensures { result ≡ with_coding coded value.now }
{
    coded || !(is_word(b"", value) || is_word(b"identity", value))
}

impl Transfer {
    /// With one more value of Transfer-Encoding.
    fn and(self, value: &[u8]) -> Transfer
        ensures { result ≡ with_transfer self value.now }
    {
        match self {
            Transfer::Absent => {
                if is_word(b"chunked", value) {
                    Transfer::Chunked
                } else {
                    Transfer::Other
                }
            }
            Transfer::Chunked => Transfer::Other,
            Transfer::Other => Transfer::Other,
        }
    }
}

/// The format of a media type, where it has one.
fn format_named(named: &[u8]) -> Option<Format>
    ensures { result ≡ format_named named.now }
{
    if is_word(b"text/plain", named) {
        return Some(Format::Text);
    }
    if is_word(b"application/openmetrics-text", named) {
        return Some(Format::OpenMetrics);
    }
    None
}

impl Media {
    /// What a media type says.
    fn by(format: Option<Format>) -> Media
        ensures { result ≡ media_by format }
    {
        match format {
            None => Media::Other,
            Some(format) => Media::Known(format),
        }
    }

    /// The format of the body. It is text where no field tells.
    fn format(self) -> Option<Format>
        ensures { (values : List (List ℕ)) → IsMedia self values → result ≡ format_by values }
    {
        match self {
            Media::Absent => Some(Format::Text),
            Media::Known(format) => Some(format),
            Media::Other => None,
        }
    }

    /// With one more value of Content-Type. The first one counts.
    fn and(self, value: &[u8]) -> Media
        ensures { result ≡ with_media self value.now }
    {
        match self {
            Media::Absent => Media::by(format_named(media_type(value))),
            Media::Known(format) => Media::Known(format),
            Media::Other => Media::Other,
        }
    }
}

impl Lengths {
    /// What is read first of a body that does not come in chunks.
    fn part(self, most: u32) -> Result<Part, ReplyFault>
        ensures part { (values : List (List ℕ)) → AreLengths self values → IsSized most values result }
        ensures first { IfOk result IsFirstPart }
    {
        match self {
            Lengths::Absent => Ok(Part::Open),
            Lengths::One(length) => {
                if length > u64::from(most) {
                    Err(ReplyFault::TooLong)
                } else if length == 0 {
                    Ok(Part::Whole)
                } else {
                    Ok(Part::Sized { length })
                }
            }
            Lengths::Bad => Err(ReplyFault::Head),
        }
    }

    /// With one more length.
    fn and_number(self, number: u64) -> Lengths
        ensures { result ≡ with_one_length self number }
    {
        match self {
            Lengths::Absent => Lengths::One(number),
            Lengths::One(first) => {
                if number == first {
                    Lengths::One(first)
                } else {
                    Lengths::Bad
                }
            }
            Lengths::Bad => Lengths::Bad,
        }
    }

    /// With one more value of Content-Length.
    fn and(self, value: &[u8]) -> Lengths
        ensures { result ≡ with_length self value.now }
    {
        match length_of(value) {
            None => Lengths::Bad,
            Some(number) => self.and_number(number),
        }
    }
}

impl HeadFacts {
    /// What no fields say.
    fn none() -> HeadFacts
        ensures { result ≡ no_facts }
    {
        HeadFacts {
            coded: false,
            transfer: Transfer::Absent,
            media: Media::Absent,
            lengths: Lengths::Absent,
        }
    }

    /// With one more field.
    fn and(self, name: &[u8], value: &[u8]) -> HeadFacts
        ensures { result ≡ with_field self (name.now, value.now) }
    {
        HeadFacts {
            coded: coding_by(self.coded, name, value),
            transfer: transfer_by(self.transfer, name, value),
            media: media_by(self.media, name, value),
            lengths: lengths_by(self.lengths, name, value),
        }
    }

    /// What the fields of a head say.
    pub(crate) fn of(bytes: &[u8], spans: &[HeaderSpan], head: &ResponseSpans) -> HeadFacts
        requires { IsResponseWithin bytes.now spans.now head.now }
        ensures { result ≡ facts_by (map (header_bytes bytes.now) (take head.now.headers spans.now)) }
    {
        let mut facts = HeadFacts::none();
        for span in &spans[..head.headers] {
            facts = facts.and(span.name.of(bytes), span.value.of(bytes));
        }
        facts
    }

    /// Whether the body comes in a coding that is not read.
    fn is_encoded(&self) -> bool
        ensures { (h : AnyHead) → AreFactsOf self.now h → result ≡ has_other_coding h }
    {
        self.coded || self.transfer == Transfer::Other
    }

    /// What is read first of the body, where it comes in no other coding.
    fn part(&self, most: u32) -> Result<Part, ReplyFault>
        ensures part { (h : AnyHead) → AreFactsOf self.now h → has_other_coding h ≡ false → IsFramed most h result }
        ensures first { IfOk result IsFirstPart }
    {
        match self.transfer {
            Transfer::Absent => self.lengths.part(most),
            _ => Ok(Part::Chunked {
                place: ChunkPlace::start(),
            }),
        }
    }

    /// How the body begins behind a head of this status, where it may have at most `most` bytes.
    pub(crate) fn start(&self, code: u16, most: u32) -> Result<Start, ReplyFault>
        ensures start { (h : AnyHead) → AreFactsOf self.now h → length h.fields ≤ field_limit → code ≡ status_code h → IsStart most h result }
        ensures first { IfOk result (λ start. IsFirstPart start.part) }
    {
        if code != 200 {
            return Err(ReplyFault::Status(code));
        }
        if self.is_encoded() {
            return Err(ReplyFault::Encoding);
        }
        let Some(format) = self.media.format() else {
            return Err(ReplyFault::MediaType);
        };
        match self.part(most) {
            Ok(part) => Ok(Start { format, part }),
            Err(fault) => Err(fault),
        }
    }
}

/// Whether the body is coded, once this field was read too, if it is Content-encoding.
fn coding_by(coded: bool, name: &[u8], value: &[u8]) -> bool
    ensures { result ≡ (if is_word (codes "content-encoding") name.now then with_coding coded value.now else coded) }
{
    if is_word(b"content-encoding", name) {
        with_coding(coded, value)
    } else {
        coded
    }
}

/// How the body is transferred, once this field was read too, if it is Transfer-encoding.
fn transfer_by(transfer: Transfer, name: &[u8], value: &[u8]) -> Transfer
    ensures { result ≡ (if is_word (codes "transfer-encoding") name.now then with_transfer transfer value.now else transfer) }
{
    if is_word(b"transfer-encoding", name) {
        transfer.and(value)
    } else {
        transfer
    }
}

/// The media type, once this field was read too, if it is Content-type.
fn media_by(media: Media, name: &[u8], value: &[u8]) -> Media
    ensures { result ≡ (if is_word (codes "content-type") name.now then with_media media value.now else media) }
{
    if is_word(b"content-type", name) {
        media.and(value)
    } else {
        media
    }
}

/// The lengths, once this field was read too, if it is Content-length.
fn lengths_by(lengths: Lengths, name: &[u8], value: &[u8]) -> Lengths
    ensures { result ≡ (if is_word (codes "content-length") name.now then with_length lengths value.now else lengths) }
{
    if is_word(b"content-length", name) {
        lengths.and(value)
    } else {
        lengths
    }
}
