//! Sources over bytes in memory.
ghost use Rattle.std.specs.Prelude.{◌≡◌, ℕ, ◌+◌, ◌-◌, ◌<◌, ◌≤◌, ◌↔◌, [], Option, Some, is_some, IsErr, IsOk, IfOk, OnErr, Contains, length, take, drop, min};
ghost use Rattle.std.specs.Io.{ReadsAtMost};
ghost use Rattle.std.specs.Io.KnownBytes.{ReadConsumes};
ghost use Rattle.bridge_ports.specs.Causes.{HasCause};
ghost use Rattle.bridge_ports.specs.InMemory.{one_more, most_at_once};

use crate::copy_front::copy_front;
use crate::{Failed, Source};
use label_sets::{Bytes, List};
use std::marker::Model;

/// A source over bytes in memory that never fails: its count of faults is always 0.
#[derive(Drop)]
pub struct SureSource {
    bytes: Bytes,
    at: usize,
}

impl Model for SureSource {
    ghost use Rattle.std.specs.Prelude.{drop, length, ◌≤◌, ℕ};
    ghost use Rattle.std.specs.Prelude as spec;

    ghost Value = { spec.List ℕ };

    ghost view = { λ s. drop s.at s.bytes };

    ghost invariant = { λ s. s.at ≤ length s.bytes };
}

impl SureSource {
    /// A source that gives `bytes` in order.
    pub fn new(bytes: Bytes) -> SureSource
        ensures { result ≡ bytes }
    {
        SureSource { bytes, at: 0 }
    }
}

impl Source for SureSource {
    ghost left = { λ s. Some s };

    ghost read_faults = { λ _. 0 };

    /// Gives as much as fits `into`, at most 2^32 - 1 bytes.
    fn read(&mut self, into: &mut [u8]) -> Result<u32, Failed>
        requires { 0 < length into.old }
        ensures bound { ReadsAtMost result into.new }
        ensures bytes { ReadConsumes (Some self.old) (Some self.new) result into.new }
        ensures told { is_some (Some self.new) ≡ is_some (Some self.old) }
        ensures cause { HasCause 0 0 result }

        ensures sure { IsOk result }
        ensures count { IfOk result (λ count.
            count ≡ min (min (length self.old) (length into.old)) most_at_once) }
    {
        let count = copy_front(&self.bytes.as_slice()[self.at..], into);
        self.at += count as usize;
        Ok(count)
    }
}

/// A source over bytes in memory, of which chosen reads fail.
#[derive(Drop)]
pub struct MemorySource {
    bytes: SureSource,
    faults: u64,
    reads: u64,
    failing: List<u64>,
}

impl Model for MemorySource {
    ghost use Rattle.bridge_ports.specs.InMemory.{SourceState};

    ghost Value = { SourceState };

    ghost view = { λ s. record {
      left = s.bytes;
      faults = s.faults;
      reads = s.reads;
      failing = s.failing;
    } };
}

impl MemorySource {
    /// A source that gives `bytes` in order; `failing` names, counted from 1, the reads that fail.
    pub fn new(bytes: Bytes, failing: List<u64>) -> MemorySource
        ensures { result ≡ record { left = bytes; faults = 0; reads = 0; failing = failing } }
    {
        MemorySource {
            bytes: SureSource::new(bytes),
            faults: 0,
            reads: 0,
            failing,
        }
    }

    /// How many reads failed.
    pub fn faults(&self) -> u64
        ensures { result ≡ self.now.faults }
    {
        self.faults
    }
}

impl Source for MemorySource {
    ghost left = { λ s. Some s.left };

    ghost read_faults = { λ s. s.faults };

    /// Gives as much as fits `into`, at most 2^32 - 1 bytes. A read that is to fail gives nothing
    /// and counts one fault. Both counts stand still at 2^64 - 1.
    fn read(&mut self, into: &mut [u8]) -> Result<u32, Failed>
        requires { 0 < length into.old }
        ensures bound { ReadsAtMost result into.new }
        ensures bytes { ReadConsumes (Some self.old.left) (Some self.new.left) result into.new }
        ensures told { is_some (Some self.new.left) ≡ is_some (Some self.old.left) }
        ensures cause { HasCause self.old.faults self.new.faults result }

        ensures number { self.new.reads ≡ one_more self.old.reads }
        ensures same { self.new.failing ≡ self.old.failing }
        ensures fails { IsErr result ↔ Contains self.old.failing self.new.reads }
        ensures fault { OnErr result (self.new.faults ≡ one_more self.old.faults) }
        ensures count { IfOk result (λ count.
            count ≡ min (min (length self.old.left) (length into.old)) most_at_once) }
    {
        self.reads = self.reads.saturating_add(1);
        if self.failing.as_slice().contains(&self.reads) {
            self.faults = self.faults.saturating_add(1);
            return Err(Failed);
        }
        self.bytes.read(into)
    }
}
