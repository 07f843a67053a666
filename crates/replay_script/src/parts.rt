//! The part of a script at the front of a text.
ghost use Rattle.std.specs.Prelude.{◌≡◌, option_map};
ghost use Rattle.replay_script.specs.ScriptReading as spec;
ghost use Rattle.replay_script.specs.Progresses.{part_found_as, front_found_as};

use crate::ending::Ending;
use crate::header::HeaderLine;
use crate::words::{Words, ending_named, format_named, header_line, split_words};
use bridge_ports::MOST_HOST_BYTES;
use page_model::Format;
use plain_words::{cut_first, host_and_port, number};

/// The words of a target line.
#[derive(Clone, Copy)]
pub struct TargetWords<'a> {
    /// The name of the job.
    pub job: &'a [u8],
    /// The host that is scraped.
    pub host: &'a [u8],
    /// The port of the host.
    pub port: u16,
    /// The path of its metrics.
    pub path: &'a [u8],
}

/// A record of a page.
#[derive(Clone, Copy)]
pub(crate) struct PageWords<'a> {
    pub(crate) at: u64,
    pub(crate) format: Format,
    pub(crate) body: &'a [u8],
}

/// A record of raw bytes.
#[derive(Clone, Copy)]
pub(crate) struct ReplyWords<'a> {
    pub(crate) at: u64,
    pub(crate) ending: Ending,
    pub(crate) got: &'a [u8],
}

/// A part that stands in a script.
#[derive(Clone, Copy)]
pub(crate) enum FoundPart<'a> {
    Opening,
    Header(HeaderLine, u64),
    Target(TargetWords<'a>),
    Page(PageWords<'a>),
    Scrape(ReplyWords<'a>),
    Post(ReplyWords<'a>),
}

/// The part at the front of a text, and what stands behind it.
#[derive(Clone, Copy)]
pub(crate) struct Front<'a> {
    pub(crate) part: FoundPart<'a>,
    pub(crate) rest: &'a [u8],
}

/// So many bytes at the front with a line feed behind them, and what stands behind that.
#[tactic(auto, unfolding(crate::specs::ScriptReading::body_at))]
fn body_at(count: u64, text: &[u8]) -> Option<(&[u8], &[u8])>
    ensures { option_map (λ parts. (parts.0.now, parts.1.now)) result ≡ spec.body_at count text.now }
{
    if count >= text.len() as u64 {
        return None;
    }
    let count = count as usize;
    if text[count] != b'\n' {
        return None;
    }
    Some((&text[..count], &text[count + 1..]))
}

/// The opening line or a header line of these words.
#[tactic(auto, unfolding(crate::specs::ScriptReading::header_in))]
fn header_part<'a>(first: &[u8], second: &[u8]) -> Option<FoundPart<'a>>
    ensures { option_map part_found_as result ≡ spec.header_in first.now second.now }
{
    if first == b"bridge-script".as_slice() {
        if second == b"1".as_slice() {
            return Some(FoundPart::Opening);
        }
        return None;
    }
    let line = match header_line(first) {
        Some(line) => line,
        None => return None,
    };
    match number(second, u64::MAX) {
        Some(number) => Some(FoundPart::Header(line, number)),
        None => None,
    }
}

/// A target line of these words.
#[tactic(auto, unfolding(crate::specs::ScriptReading::target_in))]
fn target_part<'a>(job: &'a [u8], place: &'a [u8], path: &'a [u8]) -> Option<FoundPart<'a>>
    ensures { option_map part_found_as result ≡ spec.target_in job.now place.now path.now }
{
    match host_and_port(MOST_HOST_BYTES, place) {
        Some(place) => Some(FoundPart::Target(TargetWords {
            job,
            host: place.host,
            port: place.port,
            path,
        })),
        None => None,
    }
}

/// A record of this sort and form, with these bytes.
#[tactic(auto, unfolding(crate::specs::ScriptReading::record_in))]
fn record_part<'a>(sort: &[u8], at: u64, form: &[u8], bytes: &'a [u8]) -> Option<FoundPart<'a>>
    ensures { option_map part_found_as result ≡ spec.record_in sort.now at form.now bytes.now }
{
    if sort == b"page".as_slice() {
        return match format_named(form) {
            Some(format) => Some(FoundPart::Page(PageWords {
                at,
                format,
                body: bytes,
            })),
            None => None,
        };
    }
    if sort == b"scrape".as_slice() {
        return match ending_named(form) {
            Some(ending) => Some(FoundPart::Scrape(ReplyWords {
                at,
                ending,
                got: bytes,
            })),
            None => None,
        };
    }
    if sort == b"post".as_slice() {
        return match ending_named(form) {
            Some(ending) => Some(FoundPart::Post(ReplyWords {
                at,
                ending,
                got: bytes,
            })),
            None => None,
        };
    }
    None
}

/// A record of these words, and what stands behind its bytes.
fn record_front<'a>(
    sort: &[u8],
    time: &[u8],
    form: &[u8],
    count: &[u8],
    text: &'a [u8],
) -> Option<Front<'a>>
    ensures { option_map front_found_as result ≡ spec.record_at sort.now time.now form.now count.now text.now }
{
    let at = match number(time, u64::MAX) {
        Some(at) => at,
        None => return None,
    };
    let count = match number(count, u64::MAX) {
        Some(count) => count,
        None => return None,
    };
    let (bytes, rest) = match body_at(count, text) {
        Some(parts) => parts,
        None => return None,
    };
    match record_part(sort, at, form, bytes) {
        Some(part) => Some(Front { part, rest }),
        None => None,
    }
}

/// A target line or a record of these words, and what stands behind it.
#[tactic(auto, unfolding(crate::specs::ScriptReading::target_or_record))]
fn four_words<'a>(
    first: &[u8],
    second: &'a [u8],
    third: &'a [u8],
    fourth: &'a [u8],
    text: &'a [u8],
) -> Option<Front<'a>>
    ensures { option_map front_found_as result ≡ spec.target_or_record first.now second.now third.now fourth.now text.now }
{
    if first == b"target".as_slice() {
        return match target_part(second, third, fourth) {
            Some(part) => Some(Front { part, rest: text }),
            None => None,
        };
    }
    record_front(first, second, third, fourth, text)
}

/// The part at the front of a text, and what stands behind it.
pub(crate) fn front_part(text: &[u8]) -> Option<Front<'_>>
    ensures { option_map front_found_as result ≡ spec.front_part text.now }
{
    let (line, rest) = match cut_first(b'\n', text) {
        Some(parts) => parts,
        None => return None,
    };
    match split_words(line) {
        Words::Two(first, second) => match header_part(first, second) {
            Some(part) => Some(Front { part, rest }),
            None => None,
        },
        Words::Four(first, second, third, fourth) => {
            four_words(first, second, third, fourth, rest)
        }
        Words::Other => None,
    }
}
