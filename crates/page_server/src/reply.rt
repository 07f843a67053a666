//! The text of a reply, and its way to the peer.
ghost use Rattle.std.specs.Prelude.{◌≡◌, ◌++◌, IfOk, OnOk, OnErr, codes, fold};
ghost use Rattle.std.specs.Fmt.{decimal};
ghost use Rattle.http_talk.specs.Requests.{line};
ghost use Rattle.bridge_ports.specs.Connections.{WereWritten, WereCutOff};
ghost use Rattle.page_server.specs.Serving.{ReplyAnswer, first_lines, reply_head};

use crate::status::{ReplyStatus, ServeFault};
use bridge_ports::{Conn, Failed};
use label_sets::Memory;
use std::alloc::{AllocError, Global};
use text_emitter::{Emit, Emitter};

/// The lines that a reply's head begins with.
#[tactic(auto, unfolding(crate::specs::Serving::first_lines, http_talk::specs::Requests::line))]
fn first_lines(status: ReplyStatus) -> &'static [u8]
    ensures { result.now ≡ first_lines status }
{
    match status {
        ReplyStatus::Page => {
            b"HTTP/1.1 200 OK\r\nContent-Type: application/openmetrics-text; version=1.0.0; charset=utf-8\r\n"
        }
        ReplyStatus::BadRequest => b"HTTP/1.1 400 Bad Request\r\n",
        ReplyStatus::NotFound => b"HTTP/1.1 404 Not Found\r\n",
        ReplyStatus::NotAllowed => b"HTTP/1.1 405 Method Not Allowed\r\nAllow: GET\r\n",
    }
}

/// Emits the lines that a reply's head begins with.
fn emit_first<E: Emitter>(out: &mut E, status: ReplyStatus)
    ensures { out.new ≡ fold E.push out.old (first_lines status) }
{
    out.put(first_lines(status));
}

/// Emits a line of a head, with its end.
#[tactic(auto, unfolding(http_talk::specs::Requests::line))]
fn emit_line<E: Emitter>(out: &mut E, text: &[u8])
    ensures { out.new ≡ fold E.push out.old (line text.now) }
{
    out.put(text);
    out.put(b"\r\n");
}

/// Emits the line that tells the length of what follows.
#[tactic(auto, unfolding(http_talk::specs::Requests::line))]
fn emit_length<E: Emitter>(out: &mut E, count: u64)
    ensures { out.new ≡ fold E.push out.old (line (codes "Content-Length: " ++ decimal count)) }
{
    out.put(b"Content-Length: ");
    out.put_integer(count);
    out.put(b"\r\n");
}

/// The head of a reply that carries so many bytes.
#[derive(Clone, Copy)]
struct ReplyHead {
    status: ReplyStatus,
    count: u64,
}

impl Emit for ReplyHead {
    ghost text = { λ head. reply_head head.status head.count };

    #[tactic(auto, unfolding(crate::specs::Serving::reply_head))]
    fn emit<E: Emitter>(&self, out: &mut E) {
        emit_first(out, self.status);
        emit_length(out, self.count);
        emit_line(out, b"Connection: close");
        emit_line(out, b"");
    }
}

/// The head of a reply that carries so many bytes.
fn reply_head(alloc: Global, status: ReplyStatus, count: u64) -> Result<Vec<u8>, Memory>
    ensures { IfOk result (λ text. text.items ≡ reply_head status count) }
{
    let mut text = Vec::new(alloc);
    text_emitter::write(&ReplyHead { status, count }, &mut text)?;
    Ok(text)
}

/// Writes all of a text.
fn say_all<K: Conn>(conn: &mut K, text: &[u8]) -> Result<(), Failed>
    ensures whole { OnOk result (WereWritten (K.seen conn.old) (K.seen conn.new) text.now) }
    ensures front { OnErr result (WereCutOff (K.seen conn.old) (K.seen conn.new) text.now) }
{
    let mut at = 0usize;
    while at < text.len() {
        match conn.say(&text[at..]) {
            Ok(count) => at += count as usize,
            Err(failed) => return Err(failed),
        }
    }
    Ok(())
}

/// Writes the head of a reply and what it carries.
fn say_both<K: Conn>(conn: &mut K, head: &[u8], page: &[u8]) -> Result<(), Failed>
    ensures whole { OnOk result (WereWritten (K.seen conn.old) (K.seen conn.new) (head.now ++ page.now)) }
    ensures front { OnErr result (WereCutOff (K.seen conn.old) (K.seen conn.new) (head.now ++ page.now)) }
{
    match say_all(conn, head) {
        Ok(()) => say_all(conn, page),
        Err(failed) => Err(failed),
    }
}

/// Writes the reply of this status, which carries this page, and gives the status.
///
/// # Errors
///
/// A write failed, or memory was wanted, before anything was written.
///
/// # Example
///
/// ```rust
/// let served = say_reply(alloc, &mut conn, ReplyStatus::Page, b"# EOF\n");
/// assert_eq!(rt; served, Ok(ReplyStatus::Page));
/// assert!(rt; conn.held().starts_with(b"HTTP/1.1 200 OK\r\n"));
/// assert!(rt; conn.held().ends_with(b"Content-Length: 6\r\nConnection: close\r\n\r\n# EOF\n"));
/// ```
pub fn say_reply<K: Conn>(
    alloc: Global,
    conn: &mut K,
    status: ReplyStatus,
    page: &[u8],
) -> Result<ReplyStatus, ServeFault>
    ensures { ReplyAnswer status page.now (K.seen conn.old) (K.seen conn.new) result }
{
    let head = match reply_head(alloc, status, page.len() as u64) {
        Ok(head) => head,
        Err(AllocError) => return Err(ServeFault::Memory),
    };
    match say_both(conn, head.as_slice(), page) {
        Ok(()) => Ok(status),
        Err(Failed) => Err(ServeFault::Write),
    }
}
