//! Connections and doors in memory.
ghost use Rattle.std.specs.Prelude.{◌≡◌, ◌<◌, [], ◌∷◌, ◌++◌, Some, true, false, is_some, IfOk, OnErr, length, All};
ghost use Rattle.std.specs.Io.{ReadsAtMost, WritesAtMost};
ghost use Rattle.std.specs.Io.KnownBytes.{ReadConsumes, WriteAppends};
ghost use Rattle.bridge_ports.specs.Causes.{HasCause};
ghost use Rattle.bridge_ports.specs.Doors.{HandsOut, closed_with, most_handed, broken_count};

use crate::{Door, Failed, MemorySink, MemorySource, Sink, Source};
use std::marker::Model;

/// A source and a sink in one.
#[derive(Drop)]
pub struct MemoryConn {
    source: MemorySource,
    sink: MemorySink,
}

impl Model for MemoryConn {
    ghost use Rattle.bridge_ports.specs.InMemory.{ConnState};

    ghost Value = { ConnState };

    ghost view = { λ c. record { source = c.source; sink = c.sink } };
}

impl MemoryConn {
    /// A connection that reads from this source and writes to this sink.
    pub fn new(source: MemorySource, sink: MemorySink) -> MemoryConn
        ensures { result ≡ record { source = source; sink = sink } }
    {
        MemoryConn { source, sink }
    }

    /// The bytes that were written to it.
    pub fn held(&self) -> &[u8]
        ensures { result.now ≡ self.now.sink.held }
    {
        self.sink.held()
    }
}

impl Source for MemoryConn {
    ghost left = { λ c. Some c.source.left };

    ghost read_faults = { λ c. c.source.faults };

    fn read(&mut self, into: &mut [u8]) -> Result<u32, Failed>
        requires { 0 < length into.old }
        ensures bound { ReadsAtMost result into.new }
        ensures bytes { ReadConsumes (Some self.old.source.left) (Some self.new.source.left) result into.new }
        ensures told { is_some (Some self.new.source.left) ≡ is_some (Some self.old.source.left) }
        ensures cause { HasCause self.old.source.faults self.new.source.faults result }
        ensures sink { self.new.sink ≡ self.old.sink }
    {
        self.source.read(into)
    }
}

impl Sink for MemoryConn {
    ghost held = { λ c. Some c.sink.held };

    ghost write_faults = { λ c. c.sink.faults };

    fn write(&mut self, piece: &[u8]) -> Result<u32, Failed>
        ensures bound { WritesAtMost result piece.now }
        ensures bytes { WriteAppends (Some self.old.sink.held) (Some self.new.sink.held) result piece.now }
        ensures progress { IfOk result (λ count. count ≡ 0 → piece.now ≡ []) }
        ensures told { is_some (Some self.new.sink.held) ≡ is_some (Some self.old.sink.held) }
        ensures cause { HasCause self.old.sink.faults self.new.sink.faults result }
        ensures source { self.new.source ≡ self.old.source }
    {
        self.sink.write(piece)
    }
}

/// A door at which given connections come in order. It keeps those that came back.
#[derive(Drop)]
pub struct MemoryDoor {
    // Those to come, and behind them those that came back.
    conns: Vec<MemoryConn>,
    left: usize,
    faults: u64,
    handed: u32,
    out: bool,
    broken_reads: u32,
    broken_writes: u32,
}

impl Model for MemoryDoor {
    ghost use Rattle.std.specs.Prelude.{◌+◌, ◌≤◌, take, drop, vec_len};
    ghost use Rattle.std.specs.Vec.{vec_capacity};
    ghost use Rattle.bridge_ports.specs.InMemory.{MemoryDoorState, IsMemoryDoor, door_state, out_count};

    ghost Value = { MemoryDoorState };

    ghost view = { λ d. door_state (take d.left d.conns.items) (drop d.left d.conns.items) d.faults d.handed d.out d.broken_reads d.broken_writes };

    ghost invariant = { λ d. (d.left ≤ vec_len d.conns) × (vec_len d.conns + out_count d.out ≤ vec_capacity d.conns)
        × IsMemoryDoor (door_state (take d.left d.conns.items) (drop d.left d.conns.items) d.faults d.handed d.out d.broken_reads d.broken_writes) };
}

impl MemoryDoor {
    ghost use Rattle.bridge_ports.specs.InMemory.{new_memory_door, IsFreshConn};

    /// A door at which these come in order, and then a failure at each call. None of them was used.
    pub fn new(conns: Vec<MemoryConn>) -> MemoryDoor
        requires { All IsFreshConn conns.items }
        ensures { result ≡ new_memory_door conns.items }
    {
        let left = conns.len();
        MemoryDoor {
            conns,
            left,
            faults: 0,
            handed: 0,
            out: false,
            broken_reads: 0,
            broken_writes: 0,
        }
    }

    /// The connections that came back, in order.
    pub fn back(&self) -> &[MemoryConn]
        ensures { result.now ≡ self.now.back }
    {
        &self.conns.as_slice()[self.left..]
    }
}

impl Door for MemoryDoor {
    ghost use Rattle.bridge_ports.specs.InMemory.{door_of, one_more};

    type Conn = MemoryConn;

    ghost door = { door_of };

    /// Hands out the next connection, and fails once all were handed out. The count of faults stands
    /// still at 2^64 - 1.
    fn accept(&mut self) -> Result<MemoryConn, Failed>
        requires home { (door_of self.old).out ≡ false }
        requires few { (door_of self.old).handed < most_handed }
        ensures cause { HasCause (door_of self.old).faults (door_of self.new).faults result }
        ensures done { IfOk result (λ conn. HandsOut (door_of self.old) (door_of self.new)
            (Some conn.source.left) (Some conn.sink.held) conn.source.faults conn.sink.faults) }
        ensures failed { OnErr result
            (door_of self.new ≡ record (door_of self.old) { faults = (door_of self.new).faults }) }

        ensures order { IfOk result (λ conn. self.old.conns ≡ conn ∷ self.new.conns) }
        ensures used_up { OnErr result (self.old.conns ≡ []) }
        ensures fault { OnErr result (self.new.faults ≡ one_more self.old.faults) }
    {
        if self.left == 0 {
            self.faults = self.faults.saturating_add(1);
            return Err(Failed);
        }
        let conn = self.conns.remove(0);
        self.left -= 1;
        self.handed += 1;
        self.out = true;
        Ok(conn)
    }

    fn close(&mut self, conn: MemoryConn)
        requires { (door_of self.old).out ≡ true }
        ensures door { door_of self.new ≡ closed_with (Some conn.sink.held) conn.source.faults conn.sink.faults (door_of self.old) }

        ensures kept { self.new.back ≡ self.old.back ++ conn ∷ [] }
        ensures to_come { self.new.conns ≡ self.old.conns }
    {
        self.out = false;
        self.broken_reads += broken_count(conn.source.faults());
        self.broken_writes += broken_count(conn.sink.faults());
        self.conns.push_reserved(conn);
    }

    /// Nobody waits in memory.
    fn shut(&mut self) {}
}

// A count that isn't 0 counts once.
fn broken_count(faults: u64) -> u32
    ensures { result ≡ broken_count faults }
{
    if faults == 0 { 0 } else { 1 }
}
