//! Bytes that are written to an output.

ghost use Rattle.std.specs.Prelude.{◌≡◌, []};
ghost use Rattle.bridge_ports.specs.Causes.{HasCause};
ghost use Rattle.text_emitter.specs.Printing.{Printing as Written, print_push, Prints, PrintsOn};

use crate::byte_emitter::Pieces;
use crate::room::Room;
use bridge_ports::{AllBytes, Piece, Sink, write_all};
use std::marker::Model;
use std::snapshot::Snapshot;

/// How many bytes are written at once; a piece that is longer is written alone.
const ROOM: usize = 32_768;

/// An output, and room for bytes that are written to it at once. It takes no memory.
///
/// Where a write fails nothing more is written, which is told in the end.
#[derive(Drop)]
pub(crate) struct Printing<'a, O: Sink> {
    output: &'a mut O,
    room: Room<ROOM>,
    failed: bool,
    /// The output before the text, which only proofs read.
    before: Snapshot<O>,
    all: AllBytes,
}

impl<'a, O: Sink> Model for Printing<'a, O> {
    ghost use Rattle.text_emitter.specs.Printing.{Printing as Written, printing_to, Prints};

    ghost Value = { Written };

    ghost view = { λ p. printing_to p.output.ghost_name (O.held p.before.value) (O.write_faults p.before.value) p.all.bytes };

    ghost invariant = { λ p. Prints (O.held p.output.now) (O.write_faults p.output.now) p.room p.failed
        (printing_to p.output.ghost_name (O.held p.before.value) (O.write_faults p.before.value) p.all.bytes) };
}

/// Writes what is in the room, unless a write failed.
fn flush<O: Sink>(output: &mut O, room: &mut Room<ROOM>, failed: &mut bool)
    ensures empty { room.new ≡ [] }
    ensures prints { (p : Written) → Prints (O.held output.old) (O.write_faults output.old) room.old failed.old p
        → Prints (O.held output.new) (O.write_faults output.new) [] failed.new p }
{
    if !*failed {
        *failed = write_all(output, room.as_slice()).is_err();
    }
    room.clear();
}

/// Writes a piece for which there is no room behind what is in it, or puts it there.
#[cold]
fn put_long<O: Sink>(output: &mut O, room: &mut Room<ROOM>, failed: &mut bool, piece: &[u8])
    ensures { PrintsOn (Prints (O.held output.old) (O.write_faults output.old) room.old failed.old)
        (Prints (O.held output.new) (O.write_faults output.new) room.new failed.new) piece.now }
{
    flush(output, room, failed);
    if room.try_extend_from_slice(piece).is_err() && !*failed {
        *failed = write_all(output, piece).is_err();
    }
}

impl<'a, O: Sink> Printing<'a, O> {
    /// Nothing yet behind what an output holds.
    pub(crate) fn on(output: &'a mut O) -> Printing<'a, O>
        ensures name { result.name ≡ output.entry.ghost_name }
        ensures before { result.before ≡ O.held output.old }
        ensures faults { result.faults ≡ O.write_faults output.old }
        ensures none { result.text ≡ [] }
    {
        let before = Snapshot::of(&*output);
        Printing {
            output,
            room: Room::new(),
            failed: false,
            before,
            all: AllBytes::new(),
        }
    }

    /// Writes what is left, and gives the output back. That a write failed is told through `failed`: of a pair that
    /// holds the output, a caller would not know that it is the one that was handed in.
    pub(crate) fn finish(self, failed: &mut bool) -> &'a mut O
        ensures name { result.ghost_name ≡ self.entry.name }
        ensures prints { Prints (O.held result.now) (O.write_faults result.now) [] failed.new self.entry }
    {
        let Printing {
            output,
            mut room,
            failed: mut fails,
            before: _,
            all: _,
        } = self;
        flush(output, &mut room, &mut fails);
        *failed = fails;
        output
    }
}

impl<O: Sink> Pieces for Printing<'_, O> {
    ghost push = { print_push };

    fn append(&mut self, piece: &[u8]) {
        if self.room.try_extend_from_slice(piece).is_err() {
            put_long(self.output, &mut self.room, &mut self.failed, piece);
        }
        self.all = self.all.and(&Piece { bytes: piece });
    }
}
