//! Streams over the standard library's readers and writers. They tell no bytes, and count each
//! call that fails.
ghost use Rattle.std.specs.Prelude.{◌≡◌, ℕ, ◌<◌, ◌≤◌, [], Option, is_some, IfOk, OnErr, length};
ghost use Rattle.std.specs.Io.{ReadsAtMost, WritesAtMost};
ghost use Rattle.std.specs.Io.KnownBytes.{ReadConsumes, WriteAppends};
ghost use Rattle.bridge_ports.specs.Causes.{HasCause, Rose};
ghost use Rattle.bridge_ports.specs.Edges.{untold};
ghost use Rattle.bridge_ports.specs.InMemory.{one_more};

use bridge_ports::{Failed, Reason, Sink, Source};
use std::io::{ErrorKind, Read, Write};
use std::marker::Model;

/// How often a call that a signal interrupted is made anew, before it counts as failed.
pub const MOST_TRIES: u32 = 100;

/// Whether a call that failed so is made anew, since a signal interrupted it. Why it failed is kept.
fn is_made_anew(reason: &mut Reason, kind: ErrorKind) -> bool {
    *reason = Reason::of(kind);
    kind == ErrorKind::Interrupted
}

/// A stream of the machine: a source over a reader, as standard input, and a sink over a writer, as standard output.
#[derive(Drop)]
pub struct StdStream<S> {
    stream: S,
    faults: u64,
    reason: Reason,
}

impl<S> Model for StdStream<S> {
    ghost use Rattle.std_edge.specs.Edges.{Edge};

    ghost Value = { Edge S };

    ghost view = { λ s. record { stream = s.stream; faults = s.faults } };
}

impl<S> StdStream<S> {
    /// One that reads from `stream` or writes to it. It flushes nothing, so a writer is to have no buffer of its own.
    pub fn new(stream: S) -> StdStream<S>
        ensures { result ≡ record { stream = stream; faults = 0 } }
    {
        StdStream {
            stream,
            faults: 0,
            reason: Reason::Other,
        }
    }

    /// Why its last call failed that did.
    pub fn reason(&self) -> Reason {
        self.reason
    }

    // Counts a call that failed.
    fn fail(&mut self) -> Failed
        ensures counted { self.new ≡ record self.old { faults = one_more self.old.faults } }
        ensures later { self.old.faults ≤ self.new.faults }
        ensures rose { Rose self.old.faults self.new.faults }
    {
        self.faults = self.faults.saturating_add(1);
        Failed
    }
}

impl<R: Read> Source for StdStream<R> {
    ghost left = { λ _. untold };

    ghost read_faults = { λ s. s.faults };

    /// One read of at most 2^32 - 1 bytes. A read that a signal interrupted is made anew, up to
    /// [`MOST_TRIES`] times in all; any other error counts one fault, and so does the last try.
    /// The count stands still at 2^64 - 1.
    fn read(&mut self, into: &mut [u8]) -> Result<u32, Failed>
        requires { 0 < length into.old }
        ensures bound { ReadsAtMost result into.new }
        ensures bytes { ReadConsumes untold untold result into.new }
        ensures told { is_some untold ≡ is_some untold }
        ensures cause { HasCause self.old.faults self.new.faults result }

        ensures fault { OnErr result (self.new.faults ≡ one_more self.old.faults) }
        // What the reader gave is handed on, where the reader tells its bytes.
        ensures stream { ReadConsumes (R.remaining self.old.stream) (R.remaining self.new.stream)
            result into.new }
    {
        let most = into.len().min(u32::MAX as usize);
        for _ in 0..MOST_TRIES {
            match self.stream.read(&mut into[..most]) {
                Ok(count) => return Ok(count as u32),
                Err(error) if is_made_anew(&mut self.reason, error.kind()) => {}
                Err(_) => break,
            }
        }
        Err(self.fail())
    }
}

impl<W: Write> Sink for StdStream<W> {
    ghost held = { λ _. untold };

    ghost write_faults = { λ s. s.faults };

    /// One write of at most 2^32 - 1 bytes. A write that a signal interrupted is made anew, up to
    /// [`MOST_TRIES`] times in all; any other error counts one fault, and so does the last try and
    /// a writer that takes nothing of a piece that is not empty. The count stands still at
    /// 2^64 - 1.
    fn write(&mut self, piece: &[u8]) -> Result<u32, Failed>
        ensures bound { WritesAtMost result piece.now }
        ensures bytes { WriteAppends untold untold result piece.now }
        ensures progress { IfOk result (λ count. count ≡ 0 → piece.now ≡ []) }
        ensures told { is_some untold ≡ is_some untold }
        ensures cause { HasCause self.old.faults self.new.faults result }

        ensures fault { OnErr result (self.new.faults ≡ one_more self.old.faults) }
        // The writer took what the sink says, where the writer tells its bytes.
        ensures stream { WriteAppends (W.contents self.old.stream) (W.contents self.new.stream)
            result piece.now }
    {
        let most = piece.len().min(u32::MAX as usize);
        for _ in 0..MOST_TRIES {
            match self.stream.write(&piece[..most]) {
                Err(error) if is_made_anew(&mut self.reason, error.kind()) => {}
                Ok(count) if count > 0 || most == 0 => return Ok(count as u32),
                _ => break,
            }
        }
        Err(self.fail())
    }
}
