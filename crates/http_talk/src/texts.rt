//! The texts of requests (RFC 9112, sections 3 and 5).
ghost use Rattle.std.specs.Prelude.{◌≡◌, ◌++◌, IfOk, codes, fold};
ghost use Rattle.std.specs.Fmt.{decimal};
ghost use Rattle.http_talk.specs.Requests.{line, host_of, get_request, post_head, post_request};

use bridge_ports::Address;
use label_sets::{Bytes, Memory};
use std::alloc::Global;
use text_emitter::{Emit, Emitter};

/// Emits a line of a head, with its end.
#[tactic(auto, unfolding(crate::specs::Requests::line))]
fn emit_line<E: Emitter>(out: &mut E, text: &[u8])
    ensures { out.new ≡ fold E.push out.old (line text.now) }
{
    out.put(text);
    out.put(b"\r\n");
}

/// Emits the first line of a request.
#[tactic(auto, unfolding(crate::specs::Requests::line))]
fn emit_target<E: Emitter>(out: &mut E, method: &[u8], to: &Address)
    ensures { out.new ≡ fold E.push out.old (line (method.now ++ to.now.path ++ codes " HTTP/1.1")) }
{
    out.put(method);
    out.put(to.path.as_slice());
    out.put(b" HTTP/1.1\r\n");
}

/// Emits the line that names the host.
#[tactic(auto, unfolding(crate::specs::Requests::line))]
fn emit_host<E: Emitter>(out: &mut E, to: &Address)
    ensures { out.new ≡ fold E.push out.old (line (codes "Host: " ++ host_of to.now)) }
{
    out.put(b"Host: ");
    out.put(to.host.as_slice());
    out.put(b":");
    out.put_integer(u64::from(to.port));
    out.put(b"\r\n");
}

/// Emits the line that tells the length of a body.
#[tactic(auto, unfolding(crate::specs::Requests::line))]
fn emit_length<E: Emitter>(out: &mut E, len: u64)
    ensures { out.new ≡ fold E.push out.old (line (codes "Content-Length: " ++ decimal len)) }
{
    out.put(b"Content-Length: ");
    out.put_integer(len);
    out.put(b"\r\n");
}

/// The request of a scrape.
#[derive(Clone, Copy)]
struct Get<'a> {
    to: &'a Address,
}

impl Emit for Get<'_> {
    ghost text = { λ get. get_request get.to.now };

    #[tactic(auto, unfolding(crate::specs::Requests::get_request))]
    fn emit<E: Emitter>(&self, out: &mut E) {
        emit_target(out, b"GET ", self.to);
        emit_host(out, self.to);
        emit_line(
            out,
            b"Accept: text/plain;version=0.0.4;q=0.9,application/openmetrics-text;version=1.0.0;q=0.5",
        );
        emit_line(out, b"Accept-Encoding: identity");
        emit_line(out, b"Connection: close");
        emit_line(out, b"");
    }
}

/// The head of a request that carries so many bytes to a collector.
#[derive(Clone, Copy)]
struct PostHead<'a> {
    to: &'a Address,
    len: u64,
}

impl Emit for PostHead<'_> {
    ghost text = { λ head. post_head head.to.now head.len };

    #[tactic(auto, unfolding(crate::specs::Requests::post_head))]
    fn emit<E: Emitter>(&self, out: &mut E) {
        emit_target(out, b"POST ", self.to);
        emit_host(out, self.to);
        emit_line(out, b"Content-Type: application/json");
        emit_length(out, self.len);
        emit_line(out, b"Connection: close");
        emit_line(out, b"");
    }
}

/// The request that carries a body to a collector.
#[derive(Clone, Copy)]
struct Post<'a> {
    to: &'a Address,
    body: &'a [u8],
}

impl Emit for Post<'_> {
    ghost text = { λ post. post_request post.to.now post.body.now };

    #[tactic(auto, unfolding(crate::specs::Requests::post_request))]
    fn emit<E: Emitter>(&self, out: &mut E) {
        let head = PostHead {
            to: self.to,
            len: self.body.len() as u64,
        };
        head.emit(out);
        out.put(self.body);
    }
}

/// The bytes of a text, in room that is taken once.
fn text_bytes<T: Emit>(alloc: Global, value: &T) -> Result<Bytes, Memory>
    ensures { IfOk result (λ bytes. bytes ≡ T.text value.now) }
{
    let mut bytes = Vec::with_capacity(alloc, text_emitter::length(value) as usize)?;
    text_emitter::write(value, &mut bytes)?;
    Ok(Bytes::from_vec(bytes))
}

/// The request of a scrape of this address.
///
/// # Errors
///
/// Want of memory.
///
/// # Example
///
/// ```rust
/// let host = Bytes::from_slice(alloc, b"h")?;
/// let path = Bytes::from_slice(alloc, b"/metrics")?;
/// let text = get_text(alloc, &Address { host, port: 80, path })?;
/// assert!(rt; text.as_slice().starts_with(b"GET /metrics HTTP/1.1\r\nHost: h:80\r\nAccept: text/plain;"));
/// assert!(rt; text.as_slice().ends_with(b"\r\nConnection: close\r\n\r\n"));
/// ```
pub fn get_text(alloc: Global, to: &Address) -> Result<Bytes, Memory>
    ensures { IfOk result (λ text. text ≡ get_request to.now) }
{
    text_bytes(alloc, &Get { to })
}

/// The head of the request that carries a body of so many bytes in JSON to the collector at this address: what stands
/// before the body, so that a long one can be sent from where it lies.
///
/// # Errors
///
/// Want of memory.
pub fn post_head(alloc: Global, to: &Address, len: u64) -> Result<Bytes, Memory>
    ensures { IfOk result (λ text. text ≡ post_head to.now len) }
{
    text_bytes(alloc, &PostHead { to, len })
}

/// The request that carries a body in JSON to the collector at this address.
///
/// # Errors
///
/// Want of memory.
pub fn post_text(alloc: Global, to: &Address, body: &[u8]) -> Result<Bytes, Memory>
    ensures { IfOk result (λ text. text ≡ post_request to.now body.now) }
{
    text_bytes(alloc, &Post { to, body })
}
