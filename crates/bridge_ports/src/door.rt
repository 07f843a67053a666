//! Where peers connect: the trait of a server's edge.
ghost use Rattle.std.specs.Prelude.{◌≡◌, ◌<◌, true, false, IfOk, OnErr};
ghost use Rattle.bridge_ports.specs.Causes.{HasCause};
ghost use Rattle.bridge_ports.specs.Doors.{DoorState, HandsOut, closed_with, most_handed};

use crate::{Failed, Sink, Source};

/// Where peers connect.
pub trait Door: Send + Drop {
    /// A connection to one peer.
    type Conn: Source + Sink;

    /// What the door is.
    ghost door: { Self → DoorState };

    /// Waits for a peer and hands out a fresh connection to it.
    fn accept(&mut self) -> Result<Self::Conn, Failed>
        requires home { (door self.old).out ≡ false }
        requires few { (door self.old).handed < most_handed }
        ensures cause { HasCause (door self.old).faults (door self.new).faults result }
        ensures done { IfOk result (λ conn. HandsOut (door self.old) (door self.new)
            (Self.Conn.left conn) (Self.Conn.held conn)
            (Self.Conn.read_faults conn) (Self.Conn.write_faults conn)) }
        ensures failed { OnErr result
            (door self.new ≡ record (door self.old) { faults = (door self.new).faults }) };

    /// Takes the connection back.
    fn close(&mut self, conn: Self::Conn)
        requires { (door self.old).out ≡ true }
        ensures { door self.new ≡ closed_with (Self.Conn.held conn) (Self.Conn.read_faults conn)
            (Self.Conn.write_faults conn) (door self.old) };

    /// Says that no connection will be asked for any more, so that a peer that comes then need not be kept waiting.
    fn shut(&mut self)
        ensures { door self.new ≡ door self.old };
}
