//! The request of a connection, read until it is certain what it asks for.
ghost use Rattle.std.specs.Prelude.{◌≤◌, length, IfOk};
ghost use Rattle.http_talk.specs.Heads.{head_limit};
ghost use Rattle.page_server.specs.Serving.{Decides, HearAnswer};

use crate::asked::Asked;
use crate::status::ServeFault;
use crate::target::request_asks;
use bridge_ports::{Conn, Failed};
use http_talk::{FIELD_LIMIT, HEAD_LIMIT};
use httparse::Status;
use httparse::spans::{EMPTY_HEADER_SPAN, parse_request};
use label_sets::Memory;
use std::alloc::{AllocError, Global};

/// What bytes ask for, unless a head is still waited for.
fn decided(alloc: Global, got: &[u8]) -> Result<Option<Asked>, Memory>
    requires { length got.now ≤ head_limit }
    ensures { IfOk result (Decides got.now) }
{
    let mut spans = [EMPTY_HEADER_SPAN; FIELD_LIMIT];
    match parse_request(got, &mut spans) {
        Ok(Status::Complete(head)) => {
            match request_asks(alloc, head.method.of(got), head.path.of(got)) {
                Ok(asked) => Ok(Some(asked)),
                Err(AllocError) => Err(AllocError),
            }
        }
        Ok(Status::Partial) => {
            if got.len() == HEAD_LIMIT {
                Ok(Some(Asked::BadRequest))
            } else {
                Ok(None)
            }
        }
        Err(_) => Ok(Some(Asked::BadRequest)),
    }
}

/// Reads the request of a connection until it is certain what it asks for.
///
/// # Errors
///
/// A read failed before that, or memory was wanted for the selectors.
///
/// # Example
///
/// ```rust
/// // Over `conn` comes `GET /federate?match[]=up HTTP/1.1\r\nHost: a\r\n\r\n`.
/// let asked = hear_request(alloc, &mut conn)?;
/// assert!(rt; matches!(&asked, Asked::Page(selectors) if selectors.len() == 1));
/// ```
pub fn hear_request<K: Conn>(alloc: Global, conn: &mut K) -> Result<Asked, ServeFault>
    ensures { HearAnswer (K.seen conn.old) (K.seen conn.new) result }
{
    let mut head = [0u8; HEAD_LIMIT];
    let mut filled = 0usize;
    'reading: loop {
        match decided(alloc, &head[..filled]) {
            Ok(Some(asked)) => return Ok(asked),
            Ok(None) => {}
            Err(AllocError) => return Err(ServeFault::Memory),
        }
        match conn.hear(&mut head[filled..]) {
            Ok(0) => return Ok(Asked::BadRequest),
            Ok(count) => filled += count as usize,
            Err(Failed) => return Err(ServeFault::Read),
        }
    }
}
