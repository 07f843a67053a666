//! Doors over TCP.
ghost use Rattle.std.specs.Prelude.{◌≡◌, ◌<◌, None, true, false, IfOk, IfSome, OnErr};
ghost use Rattle.bridge_ports.specs.Causes.{HasCause};
ghost use Rattle.bridge_ports.specs.Doors.{HandsOut, closed_with, most_handed, broken_count};
ghost use Rattle.bridge_ports.specs.Edges.{untold};
ghost use Rattle.bridge_ports.specs.InMemory.{one_more};
ghost use Rattle.std_edge.specs.Machine.{no_faults};

use crate::conn::NetConn;
use crate::deadline::{Deadline, MOST_SERVED, MOST_WAIT};
use bridge_ports::{Door, Failed, Sink, Source};
use std::marker::Model;
use std::net::TcpListener;
use std::time::Clock;

/// How many calls at a door failed, how many connections it handed out, and how many of them came back of which a
/// read failed, and of which a write failed.
#[derive(Clone, Copy)]
pub(crate) struct DoorCounts {
    faults: u64,
    handed: u32,
    broken_reads: u32,
    broken_writes: u32,
}

/// A door at which peers connect over TCP, until it is shut. A connection there takes at most [`MOST_SERVED`].
#[derive(Drop)]
pub struct NetDoor<R> {
    machine: R,
    listener: Option<TcpListener>,
    counts: DoorCounts,
    out: bool,
}

impl<R> Model for NetDoor<R> {
    ghost use Rattle.bridge_ports.specs.Doors.{DoorState};
    ghost use Rattle.std_edge.specs.Machine.{IsDoorCounted};
    ghost use Rattle.std_edge.specs.DoorCounts.{door_seen};

    ghost Value = { DoorState };

    ghost view = { λ d. door_seen d.counts d.out };

    ghost invariant = { λ d. IsDoorCounted (door_seen d.counts d.out) };
}

impl DoorCounts {
    ghost use Rattle.bridge_ports.specs.Worlds.{no_back_door};
    ghost use Rattle.std_edge.specs.DoorCounts.{back_seen};

    /// Those of a door at which nothing happened yet.
    pub(crate) fn none() -> DoorCounts
        ensures { back_seen result ≡ no_back_door }
    {
        DoorCounts {
            faults: 0,
            handed: 0,
            broken_reads: 0,
            broken_writes: 0,
        }
    }
}

impl<R> NetDoor<R> {
    ghost use Rattle.bridge_ports.specs.Doors.{new_door};
    ghost use Rattle.std_edge.specs.DoorCounts.{door_seen};

    /// A door at this listener.
    pub fn new(machine: R, listener: TcpListener) -> NetDoor<R>
        ensures { result ≡ new_door None }
    {
        NetDoor {
            machine,
            listener: Some(listener),
            counts: DoorCounts::none(),
            out: false,
        }
    }

    /// What happened at the door.
    pub(crate) fn counts(&self) -> DoorCounts
        ensures { self.now ≡ door_seen result self.now.out }
    {
        self.counts
    }
}

impl<R: Clock + Copy + Send + Drop> Door for NetDoor<R> {
    type Conn = NetConn<R>;

    ghost door = { λ d. d };

    /// Waits for a peer, for as long as it takes. It fails once the door is shut.
    fn accept(&mut self) -> Result<NetConn<R>, Failed>
        requires home { self.old.out ≡ false }
        requires few { self.old.handed < most_handed }
        ensures cause { HasCause self.old.faults self.new.faults result }
        ensures done { IfOk result (λ conn. HandsOut self.old self.new untold untold conn.reads conn.writes) }
        ensures failed { OnErr result (self.new ≡ record self.old { faults = self.new.faults }) }

        ensures fault { OnErr result (self.new.faults ≡ one_more self.old.faults) }
    {
        match accepted(self.machine, self.listener.as_ref()) {
            Some(conn) => {
                self.counts.handed += 1;
                self.out = true;
                Ok(conn)
            }
            None => {
                self.counts.faults = self.counts.faults.saturating_add(1);
                Err(Failed)
            }
        }
    }

    /// What the peer still sends is read off first, up to a limit.
    fn close(&mut self, conn: NetConn<R>)
        requires { self.old.out ≡ true }
        ensures { self.new ≡ closed_with untold conn.reads conn.writes self.old }
    {
        self.out = false;
        self.counts.broken_reads += broken_count(conn.reads());
        self.counts.broken_writes += broken_count(conn.writes());
        conn.linger();
    }

    /// Peers that connect from now on are refused, and so are those that wait.
    fn shut(&mut self)
        ensures { self.new ≡ self.old }
    {
        self.listener = None;
    }
}

/// The next peer that connects, where there is a listener and that succeeds.
fn accepted<R: Clock + Drop>(machine: R, listener: Option<&TcpListener>) -> Option<NetConn<R>>
    ensures { IfSome result (λ conn. conn ≡ no_faults) }
{
    let (stream, _) = listener?.accept().ok()?;
    let deadline = Deadline::after(&machine, MOST_SERVED);
    NetConn::over(machine, stream, deadline, MOST_WAIT).ok()
}

/// A count that isn't 0 counts once.
fn broken_count(faults: u64) -> u32
    ensures { result ≡ broken_count faults }
{
    if faults == 0 { 0 } else { 1 }
}
