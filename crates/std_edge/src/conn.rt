//! Connections over TCP.
ghost use Rattle.std.specs.Prelude.{◌≡◌, ◌<◌, [], is_some, IfOk, OnErr, length, refl};
ghost use Rattle.std.specs.Io.{ReadsAtMost, WritesAtMost};
ghost use Rattle.std.specs.Io.KnownBytes.{ReadConsumes, WriteAppends};
ghost use Rattle.bridge_ports.specs.Causes.{HasCause};
ghost use Rattle.bridge_ports.specs.Edges.{untold};
ghost use Rattle.bridge_ports.specs.InMemory.{one_more};

use crate::deadline::{Deadline, MOST_LINGER, MOST_WAIT};
use crate::stream::StdStream;
use bridge_ports::{Conn, Failed, Reason, Sink, Source};
use std::io;
use std::marker::Model;
use std::net::{Shutdown, TcpStream};
use std::time::{Clock, Duration};

/// The most bytes that are read off behind what was written, before a connection is closed.
const MOST_BEHIND: usize = 65_536;

/// How many of them are read at once.
const PIECE_BYTES: usize = 4_096;

/// A connection to one peer, until its deadline.
#[derive(Drop)]
pub struct NetConn<R> {
    machine: R,
    stream: TcpStream,
    deadline: Deadline,
    patience: u64,
    reads: u64,
    writes: u64,
    reason: Reason,
}

impl<R> Model for NetConn<R> {
    ghost use Rattle.std_edge.specs.Machine.{ConnCounts};

    ghost Value = { ConnCounts };

    ghost view = { λ c. record { reads = c.reads; writes = c.writes } };
}

impl<R: Drop> NetConn<R> {
    ghost use Rattle.std_edge.specs.Machine.{no_faults};

    /// A connection over this stream, which ends at the deadline, and on which no read stands still for longer than
    /// so many milliseconds. What is written goes out at once.
    pub(crate) fn over(
        machine: R,
        stream: TcpStream,
        deadline: Deadline,
        patience: u64,
    ) -> io::Result<NetConn<R>>
        ensures { IfOk result (λ conn. conn ≡ no_faults) }
    {
        stream.set_nodelay(true)?;
        Ok(NetConn {
            machine,
            stream,
            deadline,
            patience,
            reads: 0,
            writes: 0,
            reason: Reason::Other,
        })
    }

    /// How many reads failed.
    pub fn reads(&self) -> u64
        ensures { result ≡ self.now.reads }
    {
        self.reads
    }

    /// How many writes failed.
    pub fn writes(&self) -> u64
        ensures { result ≡ self.now.writes }
    {
        self.writes
    }

    /// Why the last call failed that did.
    pub(crate) fn reason(&self) -> Reason {
        self.reason
    }
}

impl<R: Clock + Drop> NetConn<R> {
    // Whether there is time left for a read until then, which stands still no longer than that.
    fn may_read(&self, end: Deadline) -> bool {
        let left = end.left(&self.machine, self.patience);
        left.is_some() && self.stream.set_read_timeout(left).is_ok()
    }

    // Whether there is time left for a write, which then stands still no longer than that.
    fn may_write(&self) -> bool {
        let left = self.deadline.left(&self.machine, MOST_WAIT);
        left.is_some() && self.stream.set_write_timeout(left).is_ok()
    }

    // Reads, where there is time left until then.
    fn read_until(&self, end: Deadline, into: &mut [u8]) -> Result<u32, Reason>
        requires { 0 < length into.old }
        ensures bound { ReadsAtMost result into.new }
        ensures bytes { ReadConsumes untold untold result into.new }
    {
        if !self.may_read(end) {
            return Err(Reason::TimedOut);
        }
        let mut source = StdStream::new(&self.stream);
        match source.read(into) {
            Ok(count) => Ok(count),
            Err(Failed) => Err(source.reason()),
        }
    }

    // Writes, where there is time left.
    fn write_in_time(&self, piece: &[u8]) -> Result<u32, Reason>
        ensures bound { WritesAtMost result piece.now }
        ensures bytes { WriteAppends untold untold result piece.now }
        ensures progress { IfOk result (λ count. count ≡ 0 → piece.now ≡ []) }
    {
        if !self.may_write() {
            return Err(Reason::TimedOut);
        }
        let mut sink = StdStream::new(&self.stream);
        match sink.write(piece) {
            Ok(count) => Ok(count),
            Err(Failed) => Err(sink.reason()),
        }
    }

    // Whether the peer has sent bytes that were not read.
    fn is_answered(&self) -> bool {
        let mut first = [0u8; 1];
        let soon = Duration::from_millis(1);
        self.stream.set_read_timeout(Some(soon)).is_ok()
            && self.stream.peek(&mut first).unwrap_or(0) > 0
    }

    /// Takes bytes from the front of a piece and answers how many. Where the peer takes no more and has answered, that is
    /// all of the piece: what comes of the request is in the reply, which can be read (RFC 9112, section 9.5).
    pub(crate) fn send(&mut self, piece: &[u8]) -> Result<u32, Failed>
        ensures bound { WritesAtMost result piece.now }
        ensures progress { IfOk result (λ count. count ≡ 0 → piece.now ≡ []) }
    {
        match self.write(piece) {
            Ok(count) => Ok(count),
            Err(failed) => {
                if self.is_answered() {
                    Ok(piece.len().min(u32::MAX as usize) as u32)
                } else {
                    Err(failed)
                }
            }
        }
    }

    /// Ends what is written and reads off what the peer still sends, unless a call failed: a connection that is closed
    /// while bytes of the peer lie unread is reset, and what was written may be lost (RFC 9112, section 9.6).
    pub(crate) fn linger(&self) {
        let is_broken = self.reads > 0 || self.writes > 0;
        if is_broken || self.stream.shutdown(Shutdown::Write).is_err() {
            return;
        }
        let end = Deadline::after(&self.machine, MOST_LINGER).or_earlier(self.deadline);
        let mut piece = [0u8; PIECE_BYTES];
        let mut left = MOST_BEHIND;
        while left > 0 {
            match self.read_until(end, &mut piece) {
                Ok(0) => return,
                Ok(count) => left = left.saturating_sub(count as usize),
                Err(_) => return,
            }
        }
    }
}

impl<R: Clock + Drop> Source for NetConn<R> {
    ghost left = { λ _. untold };

    ghost read_faults = { λ c. c.reads };

    fn read(&mut self, into: &mut [u8]) -> Result<u32, Failed>
        requires { 0 < length into.old }
        ensures bound { ReadsAtMost result into.new }
        ensures bytes { ReadConsumes untold untold result into.new }
        ensures told { is_some untold ≡ is_some untold }
        ensures cause { HasCause self.old.reads self.new.reads result }

        ensures fault { OnErr result (self.new.reads ≡ one_more self.old.reads) }
        ensures writes { self.new.writes ≡ self.old.writes }
    {
        match self.read_until(self.deadline, into) {
            Ok(count) => Ok(count),
            Err(reason) => {
                self.reads = self.reads.saturating_add(1);
                self.reason = reason;
                Err(Failed)
            }
        }
    }
}

impl<R: Clock + Drop> Sink for NetConn<R> {
    ghost held = { λ _. untold };

    ghost write_faults = { λ c. c.writes };

    fn write(&mut self, piece: &[u8]) -> Result<u32, Failed>
        ensures bound { WritesAtMost result piece.now }
        ensures bytes { WriteAppends untold untold result piece.now }
        ensures progress { IfOk result (λ count. count ≡ 0 → piece.now ≡ []) }
        ensures told { is_some untold ≡ is_some untold }
        ensures cause { HasCause self.old.writes self.new.writes result }

        ensures fault { OnErr result (self.new.writes ≡ one_more self.old.writes) }
        ensures reads { self.new.reads ≡ self.old.reads }
    {
        match self.write_in_time(piece) {
            Ok(count) => Ok(count),
            Err(reason) => {
                self.writes = self.writes.saturating_add(1);
                self.reason = reason;
                Err(Failed)
            }
        }
    }
}

impl<R: Clock + Drop> Conn for NetConn<R> {
    ghost use Rattle.bridge_ports.specs.Connections.{conn_with};

    ghost seen = { λ c. conn_with untold untold c.reads c.writes };

    fn hear(&mut self, into: &mut [u8]) -> Result<u32, Failed> {
        self.read(into)
    }

    fn say(&mut self, piece: &[u8]) -> Result<u32, Failed> {
        self.write(piece)
    }

    ghost is_both = { λ c. refl };
}
