//! A wire in memory behind a gate. Contracts see no gate: such a wire is the wire in memory in it.
ghost use Rattle.std.specs.Prelude.{◌≡◌};
ghost use Rattle.bridge_ports.specs.Plans.{MemoryState, seen_of};

use crate::gate::Gate;
use bridge_ports::{Failed, MemoryWire, Notice, Wire};
use label_sets::Memory;
use std::alloc::Global;
use std::marker::Model;
use std::time::Clock;

/// A wire in memory, whose reads wait at a gate.
#[derive(Drop)]
pub struct GatedWire<'a, R> {
    wire: MemoryWire,
    gate: Gate<'a, R>,
}

impl<'a, R> Model for GatedWire<'a, R> {
    ghost Value = { MemoryState };

    ghost view = { λ w. w.wire };
}

impl<'a, R> GatedWire<'a, R> {
    /// The same wire, behind a gate.
    pub fn new(wire: MemoryWire, gate: Gate<'a, R>) -> GatedWire<'a, R>
        ensures { result ≡ wire }
    {
        GatedWire { wire, gate }
    }

    /// The same wire, without its gate.
    pub fn into_wire(self) -> MemoryWire
        ensures { result ≡ self.entry }
    {
        self.wire
    }
}

impl<R: Clock + Sync> Wire for GatedWire<'_, R> {
    ghost state = { seen_of };

    fn ready(&mut self, alloc: Global, count: u32, room: u64) -> Result<(), Memory> {
        self.wire.ready(alloc, count, room)
    }

    fn begin(&mut self, due: u64) -> u64 {
        self.wire.begin(due)
    }

    fn connect(&mut self) -> Result<(), Failed> {
        self.gate.note_connection();
        self.wire.connect()
    }

    fn write(&mut self, piece: &[u8]) -> Result<u32, Failed> {
        self.wire.write(piece)
    }

    fn read(&mut self, into: &mut [u8]) -> Result<u32, Failed> {
        self.gate.pass();
        self.wire.read(into)
    }

    fn leave(&mut self) {
        self.wire.leave()
    }

    fn notice(&mut self, notice: Notice) {
        self.wire.notice(notice)
    }
}
