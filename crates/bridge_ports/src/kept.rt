//! Talks as a wire in memory keeps them, in memory that is taken beforehand: with what was sent, or
//! without it.
ghost use Rattle.std.specs.Prelude.{◌≡◌, ◌≢◌, ◌+◌, ◌-◌, ◌^◌, ◌<◌, ◌≤◌, [], All, true, false, IfOk, OnOk, OnErr, length, vec_len};
ghost use Rattle.bridge_ports.specs.declared.talk.Stage.TheVariants as stages;
ghost use Rattle.bridge_ports.specs.Keeping.{IsSpare, IsAllKept, kept_of};

use crate::all_bytes::{AllBytes, Piece};
use crate::talk::{End, Stage};
use label_sets::{Bytes, Memory};
use std::alloc::Global;
use std::marker::Model;
use std::mem;

/// A finished talk: what was sent, how many bytes of its reply were read, and how it ended.
#[derive(Drop)]
pub(crate) struct Kept {
    /// All bytes that were sent, which only proofs read.
    pub(crate) all: AllBytes,
    /// These bytes where the wire keeps them, else none.
    pub(crate) sent: Bytes,
    pub(crate) read: usize,
    pub(crate) end: End,
}

/// The finished talks, the one under way, and the room for those that are allowed.
#[derive(Drop)]
pub(crate) struct KeptTalks {
    alloc: Global,
    kept: Vec<Kept>,
    /// A buffer for each talk that is allowed.
    spares: Vec<Vec<u8>>,
    room: u64,
    /// Whether what is sent is kept.
    keeps: bool,
    stage: Stage,
    at: u64,
    /// All bytes that were sent in the talk under way, which only proofs read.
    all: AllBytes,
    /// These bytes where they are kept, else none.
    held: Vec<u8>,
    read: usize,
    left: u64,
}

impl Model for KeptTalks {
    ghost use Rattle.std.specs.Prelude.{vec_len};
    ghost use Rattle.bridge_ports.specs.Keeping.{KeptState, KeepsRoom, KeepsBytes};

    ghost Value = { KeptState };

    ghost view = { λ t. record {
      kept = t.kept.items;
      allowed = vec_len t.spares;
      room = t.room;
      keeps = t.keeps;
      stage = t.stage;
      at = t.at;
      sent = t.all.bytes;
      held = t.held.items;
      read = t.read;
      left = t.left;
    } };

    ghost invariant = { λ t. KeepsRoom t.keeps t.stage t.room t.left t.kept t.spares t.held
        × KeepsBytes t.keeps t.kept.items t.all.bytes t.held.items };
}

impl KeptTalks {
    ghost use Rattle.bridge_ports.specs.Keeping.{no_talks, kept_sent, kept_to};

    /// No talks. It takes no memory.
    pub(crate) fn new(alloc: Global) -> KeptTalks
        ensures { result ≡ no_talks }
    {
        KeptTalks {
            alloc,
            kept: Vec::new(alloc),
            spares: Vec::new(alloc),
            room: 0,
            keeps: true,
            stage: Stage::Idle,
            at: 0,
            all: AllBytes::new(),
            held: Vec::new(alloc),
            read: 0,
            left: 0,
        }
    }

    /// From now on nothing is kept of what is sent.
    pub(crate) fn forget(&mut self)
        ensures { self.new ≡ record self.old { keeps = false } }
    {
        self.keeps = false;
    }

    /// Whether what is sent is kept.
    pub(crate) fn keeps(&self) -> bool
        ensures { result ≡ self.now.keeps }
    {
        self.keeps
    }

    /// The finished talks in their order.
    pub(crate) fn finished(&self) -> &[Kept]
        ensures talks { result.now ≡ self.now.kept }
        ensures whole { self.now.keeps ≡ true → All IsAllKept result.now }
    {
        self.kept.as_slice()
    }

    /// How far the talk under way is.
    pub(crate) fn stage(&self) -> Stage
        ensures { result ≡ self.now.stage }
    {
        self.stage
    }

    /// How many bytes of the reply were read in the talk under way.
    pub(crate) fn read(&self) -> usize
        ensures { result ≡ self.now.read }
    {
        self.read
    }

    /// Takes the room of `count` talks of at most `room` sent bytes each; where nothing is kept, none
    /// for the bytes.
    pub(crate) fn ready(&mut self, alloc: Global, count: u32, room: u64) -> Result<(), Memory>
        requires { self.old.stage ≡ stages.Idle }
        ensures done { OnOk result (self.new ≡ record self.old { allowed = count; room = room }) }
        ensures refused { OnErr result (self.new ≡ self.old) }
    {
        let spares = spare_buffers(alloc, count, kept_count(self.keeps, room))?;
        self.kept.reserve(count as usize)?;
        self.spares = spares;
        self.room = room;
        Ok(())
    }

    /// Begins a talk.
    pub(crate) fn begin(&mut self, at: u64)
        requires free { self.old.stage ≡ stages.Idle }
        requires allowed { 0 < self.old.allowed }
        ensures { self.new ≡ record self.old {
          allowed = self.old.allowed - 1;
          stage = stages.Begun;
          at = at;
          sent = [];
          held = [];
          read = 0;
          left = self.old.room;
        } }
    {
        self.all = AllBytes::new();
        self.held = self.spares.pop().unwrap();
        self.stage = Stage::Begun;
        self.at = at;
        self.read = 0;
        self.left = self.room;
    }

    /// The peer is connected.
    pub(crate) fn connect(&mut self)
        requires { self.old.stage ≡ stages.Begun }
        ensures { self.new ≡ record self.old { stage = stages.Connected } }
    {
        self.stage = Stage::Connected;
    }

    /// Takes note of bytes that were sent, and keeps them where that is wanted.
    pub(crate) fn send(&mut self, piece: &[u8])
        requires connected { self.old.stage ≡ stages.Connected }
        requires fits { length piece.now ≤ self.old.left }
        ensures { self.new ≡ kept_sent piece.now self.old }
    {
        let count = kept_count(self.keeps, piece.len() as u64) as usize;
        self.held.extend_from_slice(&piece[..count]).unwrap();
        self.all = self.all.and(&Piece { bytes: piece });
        self.left -= piece.len() as u64;
    }

    /// Counts bytes of the reply that were read.
    pub(crate) fn got(&mut self, count: usize)
        requires { self.old.read + count < 2 ^ 64 }
        ensures { self.new ≡ record self.old { read = self.old.read + count } }
    {
        self.read += count;
    }

    /// Keeps the talk under way as a finished one.
    pub(crate) fn finish(&mut self, end: End)
        requires { self.old.stage ≢ stages.Idle }
        ensures { self.new ≡ kept_to end self.old }
    {
        let all = mem::replace(&mut self.all, AllBytes::new());
        let held = mem::replace(&mut self.held, Vec::new(self.alloc));
        self.kept.push_reserved(Kept {
            all,
            sent: Bytes::from_vec(held),
            read: self.read,
            end,
        });
        self.stage = Stage::Idle;
        self.at = 0;
        self.read = 0;
    }
}

// Of so many bytes so many are kept: all or none.
fn kept_count(keeps: bool, count: u64) -> u64
    ensures kept { result ≡ kept_of keeps count }
    ensures few { result ≤ count }
{
    if keeps { count } else { 0 }
}

// So many empty buffers of so many bytes each.
fn spare_buffers(alloc: Global, count: u32, room: u64) -> Result<Vec<Vec<u8>>, Memory>
    ensures many { IfOk result (λ spares. vec_len spares ≡ count) }
    ensures each { IfOk result (λ spares. All (IsSpare room) spares.items) }
{
    let mut spares = Vec::with_capacity(alloc, count as usize)?;
    while spares.len() < count as usize {
        spares.push_reserved(Vec::with_capacity(alloc, room as usize)?);
    }
    Ok(spares)
}
