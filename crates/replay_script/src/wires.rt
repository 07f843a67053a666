//! What the wires of a script answer, and how its targets are followed.
ghost use Rattle.std.specs.Prelude.{◌≡◌, IfOk};
ghost use Rattle.replay_script.specs.WirePlans as spec;

use crate::header::Header;
use bridge_ports::{Address, End, MemoryReply, Settings};
use label_sets::{Bytes, Memory};
use std::alloc::Global;

/// What the post wire answers where its records are used up.
///
/// # Errors
///
/// Want of memory.
#[tactic(auto, unfolding(crate::specs::WirePlans::default_reply))]
pub fn default_reply(alloc: Global) -> Result<MemoryReply, Memory>
    ensures { IfOk result (λ reply. reply ≡ spec.default_reply) }
{
    let got = Bytes::from_slice(alloc, b"HTTP/1.1 200 OK\r\nContent-Length: 2\r\n\r\n{}")?;
    Ok(MemoryReply {
        at: 0,
        got,
        end: End::Ended,
    })
}

/// Where the bodies of a script are posted.
///
/// # Errors
///
/// Want of memory.
#[tactic(auto, unfolding(crate::specs::WirePlans::script_collector))]
pub fn collector(alloc: Global) -> Result<Address, Memory>
    ensures { IfOk result (λ address. address ≡ spec.script_collector) }
{
    let host = Bytes::from_slice(alloc, b"collector")?;
    let path = Bytes::from_slice(alloc, b"/v1/metrics")?;
    Ok(Address {
        host,
        port: 4_318,
        path,
    })
}

/// How the targets of a script are followed: each visit at once.
pub fn settings(header: &Header) -> Settings
    ensures { result ≡ spec.script_settings header.now }
{
    Settings {
        keep: header.keep,
        tries: header.tries,
        limit: header.limit,
        max_page: header.max_page,
        interval: 0,
    }
}
