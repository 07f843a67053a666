//! The names of peers.
use bridge_ports::Address;
use std::{fmt, str};

/// The name or the IP address of an address's host, where it is a text. A URL writes an IPv6 address in brackets.
pub(crate) fn host_of(at: &Address) -> Option<&str> {
    let host = str::from_utf8(at.host.as_slice()).ok()?;
    let inner = host
        .strip_prefix('[')
        .and_then(|rest| rest.strip_suffix(']'));
    Some(inner.unwrap_or(host))
}

/// Host and port as they stand in a line: what is no visible character of ASCII is a question mark, so that a line stays
/// one.
#[derive(Clone, Copy)]
pub(crate) struct PeerName<'a> {
    pub(crate) host: &'a [u8],
    pub(crate) port: u16,
}

impl fmt::Display for PeerName<'_> {
    fn fmt<W: fmt::Write>(&self, f: &mut fmt::Formatter<W>) -> fmt::Result {
        for byte in self.host {
            let shown = if byte.is_ascii_graphic() { *byte } else { b'?' };
            f.write_char(char::from(shown))?;
        }
        write!(f, ":{}", self.port)
    }
}
