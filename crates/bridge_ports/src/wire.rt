//! Where talks are held: the trait of a client.
ghost use Rattle.std.specs.Prelude.{◌≡◌, ℕ, ◌<◌, ◌≤◌, [], ◌∷◌, Option, Some, IfOk, OnOk, OnErr, length, take};
ghost use Rattle.std.specs.Io.{ReadsAtMost, WritesAtMost};
ghost use Rattle.bridge_ports.specs.Causes.{HasCause};
ghost use Rattle.bridge_ports.specs.declared.talk.End.TheVariants.{ConnectFailed, WriteFailed, ReadFailed};
ghost use Rattle.bridge_ports.specs.declared.talk.Stage.TheVariants as stages;
ghost use Rattle.bridge_ports.specs.Talks.{WireState, made_ready, begun_at, sent_on, after_read, failed_at, left_at};

use crate::{Failed, Notice};
use label_sets::Memory;
use std::alloc::Global;

/// A client that makes one connection for each talk.
pub trait Wire: Send {
    /// What the wire is: what callers may rely on, and, where it tells, all that was said.
    ghost state: { Self → WireState };

    /// Allows `count` talks of at most `room` sent bytes each. This alone takes memory.
    fn ready(&mut self, alloc: Global, count: u32, room: u64) -> Result<(), Memory>
        requires { (state self.old).stage ≡ stages.Idle }
        ensures done { OnOk result (state self.new ≡ made_ready count room (state self.old)) }
        ensures refused { OnErr result (state self.new ≡ state self.old) };

    /// Begins a talk once the clock reads `due` at least, and answers the reading.
    fn begin(&mut self, due: u64) -> u64
        requires free { (state self.old).stage ≡ stages.Idle }
        requires allowed { 0 < (state self.old).allowed }
        ensures { state self.new ≡ begun_at result (state self.old) };

    /// Connects to the peer.
    fn connect(&mut self) -> Result<(), Failed>
        requires { (state self.old).stage ≡ stages.Begun }
        ensures cause { HasCause (state self.old).faults (state self.new).faults result }
        ensures done { OnOk result (state self.new ≡ record (state self.old) { stage = stages.Connected }) }
        ensures failed { OnErr result
            (state self.new ≡ failed_at ConnectFailed (state self.new).faults (state self.old)) };

    /// Takes bytes from the front of `piece` and answers how many; 0 only for an empty piece.
    fn write(&mut self, piece: &[u8]) -> Result<u32, Failed>
        requires connected { (state self.old).stage ≡ stages.Connected }
        requires room { length piece.now ≤ (state self.old).left }
        ensures bound { WritesAtMost result piece.now }
        ensures progress { IfOk result (λ count. count ≡ 0 → piece.now ≡ []) }
        ensures cause { HasCause (state self.old).faults (state self.new).faults result }
        ensures done { IfOk result (λ count.
            state self.new ≡ sent_on (take count piece.now) (state self.old)) }
        ensures failed { OnErr result
            (state self.new ≡ failed_at WriteFailed (state self.new).faults (state self.old)) };

    /// Reads at least one byte into the front of `into` and answers how many; 0 exactly where the
    /// peer ended, which finishes the talk.
    fn read(&mut self, into: &mut [u8]) -> Result<u32, Failed>
        requires connected { (state self.old).stage ≡ stages.Connected }
        requires some { 0 < length into.old }
        ensures bound { ReadsAtMost result into.new }
        ensures cause { HasCause (state self.old).faults (state self.new).faults result }
        ensures done { IfOk result (λ count.
            state self.new ≡ after_read (take count into.new) (state self.old)) }
        ensures failed { OnErr result
            (state self.new ≡ failed_at ReadFailed (state self.new).faults (state self.old)) };

    /// Leaves the talk, where one is under way.
    fn leave(&mut self)
        ensures { state self.new ≡ left_at (state self.old).stage (state self.old) };

    /// Takes what a visit of its target came to. It takes no memory and can't fail.
    fn notice(&mut self, notice: Notice)
        ensures { state self.new ≡ state self.old };
}
