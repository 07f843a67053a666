//! Both ends of a connection over loopback, in one process.
ghost use Rattle.std.specs.Prelude.{◌≡◌, ◌<◌, ◌≤◌, true, false, is_some, IfOk, OnOk};
ghost use Rattle.bridge_ports.specs.declared.talk.Stage.TheVariants as stages;
ghost use Rattle.bridge_ports.specs.Doors.{most_handed};

use bridge_ports::{Address, Door, Failed, Place, Sink, Source, Wire};
use label_sets::{Bytes, Memory};
use std::alloc::Global;
use std::net::TcpListener;
use std::time::Clock;
use std_edge::{NetDoor, NetWire};

/// A port of this host's loopback.
pub(crate) fn address(alloc: Global, host: &str, port: u16) -> Result<Address, Memory> {
    Ok(Address {
        host: Bytes::from_slice(alloc, host.as_bytes())?,
        port,
        path: Bytes::from_slice(alloc, b"/")?,
    })
}

/// Begins a talk once the clock reads `due`, and sends four bytes; the reading, where they went out.
pub(crate) fn ask<W: Wire>(alloc: Global, wire: &mut W, due: u64) -> Result<Option<u64>, Memory>
    requires { (W.state wire.old).stage ≡ stages.Idle }
    ensures place { (W.state wire.new).place ≡ (W.state wire.old).place }
    ensures sent { IfOk result (λ at. is_some at ≡ true → (W.state wire.new).stage ≡ stages.Connected) }
    ensures unsent { IfOk result (λ at. is_some at ≡ false → (W.state wire.new).stage ≡ stages.Idle) }
{
    wire.ready(alloc, 1, 4)?;
    let at = wire.begin(due);
    if wire.connect().is_err() {
        return Ok(None);
    }
    if wire.write(b"ping").is_err() {
        return Ok(None);
    }
    Ok(Some(at))
}

/// Reads what the peer sent, and then its end: both counts, where both reads were answered.
fn hear<W: Wire>(wire: &mut W, into: &mut [u8; 8]) -> Option<(u32, u32)>
    requires { (W.state wire.old).stage ≡ stages.Connected }
    ensures idle { (W.state wire.new).stage ≡ stages.Idle }
    ensures place { (W.state wire.new).place ≡ (W.state wire.old).place }
{
    let mut rest = [0u8; 8];
    match wire.read(into) {
        Ok(0) => Some((0, 0)),
        Ok(count) => {
            let end = wire.read(&mut rest).ok();
            wire.leave();
            Some((count, end?))
        }
        Err(Failed) => None,
    }
}

/// Takes one peer, sends back what it sent, and lets it go; how many bytes that were.
fn answer<D: Door>(door: &mut D) -> Option<u32>
    requires home { (D.door door.old).out ≡ false }
    requires few { (D.door door.old).handed < most_handed }
{
    let mut into = [0u8; 8];
    let mut conn = door.accept().ok()?;
    let count = conn.read(&mut into).unwrap_or(0);
    let sent = conn.write(&into[..count as usize]).ok();
    door.close(conn);
    sent
}

/// Whether the door got four bytes over the wire, not before the clock read `due`, and the wire got them back and
/// then the end.
pub(crate) fn is_heard<W: Wire, D: Door>(
    alloc: Global,
    wire: &mut W,
    door: &mut D,
    due: u64,
) -> Result<bool, Memory>
    requires idle { (W.state wire.old).stage ≡ stages.Idle }
    requires home { (D.door door.old).out ≡ false }
    requires few { (D.door door.old).handed < most_handed }
    ensures idle { OnOk result ((W.state wire.new).stage ≡ stages.Idle) }
    ensures place { (W.state wire.new).place ≡ (W.state wire.old).place }
{
    let mut into = [0u8; 8];
    match ask(alloc, wire, due) {
        Ok(Some(at)) => {
            let answered = answer(door);
            let heard = hear(wire, &mut into);
            Ok(
                at >= due
                    && answered == Some(4)
                    && heard == Some((4, 0))
                    && into.starts_with(b"ping"),
            )
        }
        Ok(None) => Ok(false),
        Err(memory) => Err(memory),
    }
}

pub(crate) const PLACE: Place = Place {
    number: 1,
    post: false,
};

pub(crate) const LOOPBACK: &str = "127.0.0.1";

/// A listener at a host of this machine, and its port, where there can be one.
pub(crate) fn listening(rt: &HostRuntime, host: &str) -> Option<(TcpListener, u16)> {
    let listener = TcpListener::bind(rt, (host, 0)).ok()?;
    let port = listener.local_addr().ok()?.port();
    Some((listener, port))
}

/// What the clock reads 20 milliseconds from now.
fn soon(rt: &HostRuntime) -> Option<u64> {
    let now = rt.since_1970().ok()?.as_nanos().min(u64::MAX as u128) as u64;
    Some(now.saturating_add(20_000_000))
}

/// Whether a talk to a host crosses loopback to a listener at this port, begun once the clock reads `due`.
fn crosses_to(
    rt: HostRuntime,
    listener: TcpListener,
    host: &str,
    port: u16,
    due: u64,
) -> Result<bool, Memory> {
    let to = address(rt.alloc(), host, port)?;
    let mut door = NetDoor::new(rt, listener);
    let mut wire = NetWire::new(rt, PLACE, to);
    let heard = is_heard(rt.alloc(), &mut wire, &mut door, due);
    drop(wire);
    drop(door);
    heard
}

/// The same of a listener at this host, where there can be one, and of a talk that is begun soon.
fn crosses(rt: HostRuntime, at: &str, host: &str) -> Option<Result<bool, Memory>> {
    let Some(due) = soon(&rt) else {
        return Some(Ok(false));
    };
    let (listener, port) = listening(&rt, at)?;
    Some(crosses_to(rt, listener, host, port, due))
}

// A URL writes an IPv6 address in brackets, which are no part of it, whatever stands in them.
#[test]
fn talks_cross_loopback(rt: HostRuntime) {
    const HOSTS: &[&str] = &[LOOPBACK, "localhost", "[127.0.0.1]"];
    for host in HOSTS {
        assert!(rt; crosses(rt, LOOPBACK, host) == Some(Ok(true)), "{host}");
    }
}

// Not every machine has an IPv6 loopback.
#[test]
fn talks_cross_the_loopback_of_ipv6(rt: HostRuntime) {
    const HOSTS: &[&str] = &["::1", "[::1]"];
    for host in HOSTS {
        let crosses = crosses(rt, "::1", host);
        assert!(rt; crosses.unwrap_or(Ok(true)) == Ok(true), "{host}");
    }
}

/// Whether a talk crosses to a door, and when one began that was held once the door was shut.
fn asked_when_shut<W: Wire, D: Door>(
    alloc: Global,
    wire: &mut W,
    door: &mut D,
) -> Result<(bool, Option<u64>), Memory>
    requires idle { (W.state wire.old).stage ≡ stages.Idle }
    requires home { (D.door door.old).out ≡ false }
    requires few { (D.door door.old).handed < most_handed }
{
    let heard = is_heard(alloc, wire, door, 0)?;
    door.shut();
    Ok((heard, ask(alloc, wire, 0)?))
}

/// The same of a door at a listener with this port.
fn asked_at_shut_door(
    rt: HostRuntime,
    listener: TcpListener,
    port: u16,
) -> Result<(bool, Option<u64>), Memory> {
    let to = address(rt.alloc(), LOOPBACK, port)?;
    let mut door = NetDoor::new(rt, listener);
    let mut wire = NetWire::new(rt, PLACE, to);
    let asked = asked_when_shut(rt.alloc(), &mut wire, &mut door);
    drop(wire);
    drop(door);
    asked
}

/// The same of a listener of this machine.
fn asked_where_shut(rt: HostRuntime) -> Option<Result<(bool, Option<u64>), Memory>> {
    let (listener, port) = listening(&rt, LOOPBACK)?;
    Some(asked_at_shut_door(rt, listener, port))
}

#[test]
fn door_that_is_shut_refuses(rt: HostRuntime) {
    assert!(rt; asked_where_shut(rt) == Some(Ok((true, None))));
}

/// Takes one peer, says no, and lets it go.
fn refuse<D: Door>(door: &mut D) -> Option<u32>
    requires home { (D.door door.old).out ≡ false }
    requires few { (D.door door.old).handed < most_handed }
{
    let mut conn = door.accept().ok()?;
    let said = conn.write(b"no").ok();
    door.close(conn);
    said
}

/// How many bytes a peer takes that has gone, of two pieces, and what it said before.
fn heard_behind_end<W: Wire>(wire: &mut W, into: &mut [u8; 8]) -> Option<[u32; 3]>
    requires connected { (W.state wire.old).stage ≡ stages.Connected }
    requires room { 8 ≤ (W.state wire.old).left }
{
    let first = wire.write(b"ping").ok()?;
    if first != 4 {
        wire.leave();
        return None;
    }
    let second = wire.write(b"pong").ok()?;
    Some([first, second, wire.read(into).ok()?])
}

/// The same of a peer at a door that has said no.
fn heard_of_refusal<W: Wire, D: Door>(
    alloc: Global,
    wire: &mut W,
    door: &mut D,
) -> Result<Option<([u32; 3], bool)>, Memory>
    requires idle { (W.state wire.old).stage ≡ stages.Idle }
    requires home { (D.door door.old).out ≡ false }
    requires few { (D.door door.old).handed < most_handed }
{
    let mut into = [0u8; 8];
    wire.ready(alloc, 1, 8)?;
    let _begun = wire.begin(0);
    if wire.connect().is_err() {
        return Ok(None);
    }
    if refuse(door) != Some(2) {
        return Ok(None);
    }
    match heard_behind_end(wire, &mut into) {
        Some(counts) => Ok(Some((counts, into.starts_with(b"no")))),
        None => Ok(None),
    }
}

/// The same over a wire of this machine to a listener with this port.
fn heard_at_port(
    rt: HostRuntime,
    listener: TcpListener,
    port: u16,
) -> Result<Option<([u32; 3], bool)>, Memory> {
    let to = address(rt.alloc(), LOOPBACK, port)?;
    let mut door = NetDoor::new(rt, listener);
    let mut wire = NetWire::new(rt, PLACE, to);
    let heard = heard_of_refusal(rt.alloc(), &mut wire, &mut door);
    drop(wire);
    drop(door);
    heard
}

/// The same of a listener of this machine.
fn heard_there(rt: HostRuntime) -> Option<Result<Option<([u32; 3], bool)>, Memory>> {
    let (listener, port) = listening(&rt, LOOPBACK)?;
    Some(heard_at_port(rt, listener, port))
}

// The second piece finds no peer any more; its reply is read all the same.
#[test]
fn early_reply_is_read(rt: HostRuntime) {
    assert!(rt; heard_there(rt) == Some(Ok(Some(([4, 4, 2], true)))));
}

/// When a talk to a host began, where it could be sent.
fn asked(rt: HostRuntime, host: &str) -> Result<Option<u64>, Memory> {
    let mut wire = NetWire::new(rt, PLACE, address(rt.alloc(), host, 1)?);
    let asked = ask(rt.alloc(), &mut wire, 0);
    drop(wire);
    asked
}

#[test]
fn nobody_listens(rt: HostRuntime) {
    const HOSTS: &[&str] = &[LOOPBACK, "no such host"];
    for host in HOSTS {
        assert!(rt; asked(rt, host) == Ok(None));
    }
}

/// Whether nothing comes back over a wire to this port, over which a talk was begun.
fn hears_nothing(rt: HostRuntime, port: u16) -> Result<bool, Memory> {
    let mut into = [0u8; 8];
    let mut wire = NetWire::new(rt, PLACE, address(rt.alloc(), LOOPBACK, port)?);
    let silent = match ask(rt.alloc(), &mut wire, 0) {
        Ok(Some(_)) => Ok(hear(&mut wire, &mut into).is_none()),
        Ok(None) => Ok(false),
        Err(memory) => Err(memory),
    };
    drop(wire);
    silent
}

/// The same of a listener that takes nobody.
fn hears_nothing_there(rt: HostRuntime) -> Option<Result<bool, Memory>> {
    let (listener, port) = listening(&rt, LOOPBACK)?;
    let silent = hears_nothing(rt, port);
    drop(listener);
    Some(silent)
}

// It takes as long as a call stands still at most, `MOST_WAIT`, which is 10 seconds.
#[test]
fn read_that_stands_still_fails(rt: HostRuntime) {
    assert!(rt; hears_nothing_there(rt) == Some(Ok(true)));
}
