//! The replies of records (RFC 9112, sections 4 to 6).
ghost use Rattle.std.specs.Prelude.{◌≡◌, IfOk};
ghost use Rattle.replay_script.specs.ScriptContents as spec;

use crate::ending::Ending;
use bridge_ports::{End, MemoryReply};
use label_sets::Bytes;
use page_model::Format;
use std::alloc::{AllocError, Global};

/// The most bytes of the head of a reply that carries a page.
const MOST_HEAD_BYTES: usize = 256;

/// The media type of a format.
fn media_type(format: Format) -> &'static [u8]
    ensures { result.now ≡ spec.page_media_type format }
{
    match format {
        Format::Text => b"text/plain; version=0.0.4",
        Format::OpenMetrics => b"application/openmetrics-text; version=1.0.0; charset=utf-8",
    }
}

/// The bytes of a reply that carries a page.
#[tactic(auto, unfolding(crate::specs::ScriptContents::page_message))]
fn page_message(alloc: Global, format: Format, body: &[u8]) -> Result<Vec<u8>, AllocError>
    ensures { IfOk result (λ text. text.items ≡ spec.page_message format body.now) }
{
    let mut digits = itoa::Buffer::new();
    let mut text = Vec::with_capacity(alloc, body.len().saturating_add(MOST_HEAD_BYTES))?;
    text.extend_from_slice(b"HTTP/1.1 200 OK\r\n")?;
    text.extend_from_slice(b"Content-Type: ")?;
    text.extend_from_slice(media_type(format))?;
    text.extend_from_slice(b"\r\n")?;
    text.extend_from_slice(b"Content-Length: ")?;
    text.extend_from_slice(digits.format(body.len()).as_bytes())?;
    text.extend_from_slice(b"\r\n")?;
    text.extend_from_slice(b"\r\n")?;
    text.extend_from_slice(body)?;
    Ok(text)
}

/// The reply of a page: the whole of it, and then the peer ends.
///
/// # Errors
///
/// Want of memory.
pub fn page_reply(
    alloc: Global,
    at: u64,
    format: Format,
    body: &[u8],
) -> Result<MemoryReply, AllocError>
    ensures { IfOk result (λ reply. reply ≡ spec.page_reply at format body.now) }
{
    let got = page_message(alloc, format, body)?;
    Ok(MemoryReply {
        at,
        got: Bytes::from_vec(got),
        end: End::Ended,
    })
}

/// The reply of raw bytes.
///
/// # Errors
///
/// Want of memory.
pub fn raw_reply(
    alloc: Global,
    at: u64,
    ending: Ending,
    got: &[u8],
) -> Result<MemoryReply, AllocError>
    ensures { IfOk result (λ reply. reply ≡ spec.raw_reply at ending got.now) }
{
    let got = Bytes::from_slice(alloc, got)?;
    Ok(MemoryReply {
        at,
        got,
        end: ending.end(),
    })
}
