//! Connections whose reads and writes do not disturb one another.
ghost use Rattle.std.specs.Prelude.{◌≡◌, ◌<◌, [], Some, IfOk, length, refl};
ghost use Rattle.std.specs.Io.{ReadsAtMost, WritesAtMost};

use crate::{Failed, MemoryConn, Sink, Source};

/// A connection to a peer: a read leaves what was written as it is, and a write what is still to come.
pub trait Conn: Source + Sink {
    ghost use Rattle.bridge_ports.specs.Connections.{ConnSeen, IsHeard, IsSaid, conn_with};

    /// What is seen of it.
    ghost seen: { Self → ConnSeen };

    /// Reads at least one byte into the front of `into` and answers how many; 0 exactly at the end.
    fn hear(&mut self, into: &mut [u8]) -> Result<u32, Failed>
        requires { 0 < length into.old }
        ensures bound { ReadsAtMost result into.new }
        ensures heard { IsHeard (seen self.old) (seen self.new) result into.new };

    /// Takes bytes from the front of `piece` and answers how many; 0 only for an empty piece.
    fn say(&mut self, piece: &[u8]) -> Result<u32, Failed>
        ensures bound { WritesAtMost result piece.now }
        ensures progress { IfOk result (λ count. count ≡ 0 → piece.now ≡ []) }
        ensures said { IsSaid (seen self.old) (seen self.new) result piece.now };

    /// It is what is seen of it as a source and as a sink.
    ghost is_both: { (c : Self)
        → seen c ≡ conn_with (Self.left c) (Self.held c) (Self.read_faults c) (Self.write_faults c) };
}

impl Conn for MemoryConn {
    ghost use Rattle.bridge_ports.specs.Connections.{conn_with};

    ghost seen = { λ c. conn_with (Some c.source.left) (Some c.sink.held) c.source.faults c.sink.faults };

    fn hear(&mut self, into: &mut [u8]) -> Result<u32, Failed> {
        self.read(into)
    }

    fn say(&mut self, piece: &[u8]) -> Result<u32, Failed> {
        self.write(piece)
    }

    ghost is_both = { λ c. refl };
}
