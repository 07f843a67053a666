//! A sink over memory that is taken beforehand.
ghost use Rattle.std.specs.Prelude.{◌≡◌, ℕ, ◌+◌, ◌-◌, ◌<◌, ◌≤◌, ◌↔◌, ◌⊎◌, [], ◌++◌, Option, Some, is_some, IsErr, IfOk, OnErr, Contains, length, take, min};
ghost use Rattle.std.specs.Io.{WritesAtMost};
ghost use Rattle.std.specs.Io.KnownBytes.{WriteAppends};
ghost use Rattle.bridge_ports.specs.Causes.{HasCause};
ghost use Rattle.bridge_ports.specs.InMemory.{one_more, most_at_once};

use crate::{Failed, Sink};
use label_sets::{List, Memory};
use std::alloc::Global;
use std::marker::Model;

/// A sink over memory of a fixed size, of which chosen writes fail.
#[derive(Drop)]
pub struct MemorySink {
    bytes: Vec<u8>,
    room: u64,
    faults: u64,
    writes: u64,
    failing: List<u64>,
}

impl Model for MemorySink {
    ghost use Rattle.std.specs.Prelude.{◌+◌, ◌≤◌, vec_len};
    ghost use Rattle.std.specs.Vec.{vec_capacity};
    ghost use Rattle.bridge_ports.specs.InMemory.{SinkState};

    ghost Value = { SinkState };

    ghost view = { λ s. record {
      held = s.bytes.items;
      room = s.room;
      faults = s.faults;
      writes = s.writes;
      failing = s.failing;
    } };

    ghost invariant = { λ s. vec_len s.bytes + s.room ≤ vec_capacity s.bytes };
}

impl MemorySink {
    /// A sink for `room` bytes, whose memory it takes here; `failing` names, counted from 1, the
    /// writes that fail.
    ///
    /// # Errors
    ///
    /// Want of memory.
    pub fn new(alloc: Global, room: u64, failing: List<u64>) -> Result<MemorySink, Memory>
        ensures { IfOk result (λ sink. sink ≡
            record { held = []; room = room; faults = 0; writes = 0; failing = failing }) }
    {
        Ok(MemorySink {
            bytes: Vec::with_capacity(alloc, room as usize)?,
            room,
            faults: 0,
            writes: 0,
            failing,
        })
    }

    /// The bytes that were written.
    pub fn held(&self) -> &[u8]
        ensures { result.now ≡ self.now.held }
    {
        self.bytes.as_slice()
    }

    /// How many writes failed.
    pub fn faults(&self) -> u64
        ensures { result ≡ self.now.faults }
    {
        self.faults
    }
}

impl Sink for MemorySink {
    ghost held = { λ s. Some s.held };

    ghost write_faults = { λ s. s.faults };

    /// Takes what fits the room left, at most 2^32 - 1 bytes, and no memory. A write that is to
    /// fail, or one of a piece that is not empty where no room is left, takes nothing and counts
    /// one fault. Both counts stand still at 2^64 - 1.
    fn write(&mut self, piece: &[u8]) -> Result<u32, Failed>
        ensures bound { WritesAtMost result piece.now }
        ensures bytes { WriteAppends (Some self.old.held) (Some self.new.held) result piece.now }
        ensures progress { IfOk result (λ count. count ≡ 0 → piece.now ≡ []) }
        ensures told { is_some (Some self.new.held) ≡ is_some (Some self.old.held) }
        ensures cause { HasCause self.old.faults self.new.faults result }

        ensures number { self.new.writes ≡ one_more self.old.writes }
        ensures same { self.new.failing ≡ self.old.failing }
        ensures fails { IsErr result ↔ (Contains self.old.failing self.new.writes
            ⊎ ((self.old.room ≡ 0) × (0 < length piece.now))) }
        ensures fault { OnErr result (self.new.faults ≡ one_more self.old.faults) }
        ensures count { IfOk result (λ count.
            count ≡ min (min (length piece.now) self.old.room) most_at_once) }
        ensures room { length self.new.held + self.new.room ≡ length self.old.held + self.old.room }
    {
        self.writes = self.writes.saturating_add(1);
        if self.failing.as_slice().contains(&self.writes) || (self.room == 0 && !piece.is_empty()) {
            self.faults = self.faults.saturating_add(1);
            return Err(Failed);
        }
        let count = piece.len().min(self.room as usize).min(u32::MAX as usize);
        self.bytes.extend_from_slice(&piece[..count]).unwrap();
        self.room -= count as u64;
        Ok(count as u32)
    }
}
