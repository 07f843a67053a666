//! Bytes that are appended to a vector.

ghost use Rattle.std.specs.Prelude.{◌≡◌, [], length, take, OnOk, OnErr};
ghost use Rattle.text_emitter.specs.Emitters.{append_push, Appended, Holds, HoldsMore};

use crate::byte_emitter::Pieces;
use crate::room::Room;
use bridge_ports::{AllBytes, Piece};
use std::alloc::AllocError;
use std::marker::Model;
use std::mem;

/// How many bytes are appended at once; a piece that is longer is appended alone.
const ROOM: usize = 2_048;

/// A vector behind whose bytes those of a text are appended.
///
/// It grows where it has to. Where there is no memory for that, some of the text is missing; so it is
/// taken away in the end. Pieces are gathered in a room of a fixed size, where a short one costs few
/// instructions: a vector may have to grow for each.
#[derive(Drop)]
pub(crate) struct Growing {
    bytes: Vec<u8>,
    /// What stands behind the bytes, and is not yet appended to them.
    room: Room<ROOM>,
    /// How many bytes stood there before the text.
    start: usize,
    failed: bool,
    all: AllBytes,
}

impl Model for Growing {
    ghost use Rattle.text_emitter.specs.Emitters.{Appended, Holds, appended};

    ghost Value = { Appended };

    ghost view = { λ g. appended g.all.bytes g.start };

    ghost invariant = { λ g. Holds g.bytes.items g.room g.failed (appended g.all.bytes g.start) };
}

/// Appends what is in the room. Where there is no memory for it, that is told through `failed`.
fn flush(bytes: &mut Vec<u8>, room: &mut Room<ROOM>, failed: &mut bool)
    ensures empty { room.new ≡ [] }
    ensures holds { (all : Appended) → Holds bytes.old.items room.old failed.old all → Holds bytes.new.items [] failed.new all }
{
    if bytes.extend_from_slice(room.as_slice()).is_err() {
        *failed = true;
    }
    room.clear();
}

/// Appends a piece for which there is no room behind what is in it, or puts it there.
#[cold]
fn put_long(bytes: &mut Vec<u8>, room: &mut Room<ROOM>, failed: &mut bool, piece: &[u8])
    ensures { HoldsMore (Holds bytes.old.items room.old failed.old) (Holds bytes.new.items room.new failed.new) piece.now }
{
    flush(bytes, room, failed);
    if room.try_extend_from_slice(piece).is_err() && bytes.extend_from_slice(piece).is_err() {
        *failed = true;
    }
}

impl Growing {
    /// The bytes of a vector, which are taken out of it.
    pub(crate) fn from(out: &mut Vec<u8>) -> Growing
        ensures bytes { result.bytes ≡ out.old.items }
        ensures start { result.start ≡ length out.old.items }
    {
        let alloc = *out.allocator();
        let bytes = mem::replace(out, Vec::new(alloc));
        let front = Piece {
            bytes: bytes.as_slice(),
        };
        let all = AllBytes::new().and(&front);
        Growing {
            start: bytes.len(),
            bytes,
            room: Room::new(),
            failed: false,
            all,
        }
    }

    /// Gives the bytes back to the vector: with the text, or without it where there was no memory.
    pub(crate) fn give_back(self, out: &mut Vec<u8>) -> Result<(), AllocError>
        ensures ok { OnOk result (out.new.items ≡ self.bytes) }
        ensures err { OnErr result (out.new.items ≡ take self.start self.bytes) }
    {
        let Growing {
            mut bytes,
            mut room,
            start,
            mut failed,
            all: _,
        } = self;
        flush(&mut bytes, &mut room, &mut failed);
        if failed {
            bytes.truncate(start);
            *out = bytes;
            return Err(AllocError);
        }
        *out = bytes;
        Ok(())
    }
}

impl Pieces for Growing {
    ghost push = { append_push };

    #[tactic(auto, using(crate::proofs::Folds::append_folded))]
    #[inline(always)]
    fn append(&mut self, piece: &[u8]) {
        if self.room.try_extend_from_slice(piece).is_err() {
            put_long(&mut self.bytes, &mut self.room, &mut self.failed, piece);
        }
        self.all = self.all.and(&Piece { bytes: piece });
    }
}
