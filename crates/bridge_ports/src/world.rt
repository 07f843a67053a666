//! What the program finds outside: the trait of a world.
ghost use Rattle.std.specs.Prelude.{◌≡◌, Option, Some, None, IsSome, is_some, IfOk, OnOk, OnErr, true, false, ◌<◌, length};
ghost use Rattle.std.specs.Io.{ReadsAtMost};
ghost use Rattle.bridge_ports.specs.Causes.{HasCause};
ghost use Rattle.bridge_ports.specs.declared.talk.Stage.TheVariants as stages;
ghost use Rattle.bridge_ports.specs.Doors.{new_door};
ghost use Rattle.bridge_ports.specs.Worlds.{IsHome};
ghost use Rattle.bridge_ports.specs.Outside.{Outside, FileReads, with_file_open, with_no_file_open, with_pair_out, with_pair_home, with_door_asked, with_back_door, with_shelved_pair};

use crate::memory_wire::MemoryWire;
use crate::{Address, Door, Failed, RunNotice, Wire};
use label_sets::{Memory, Text};
use std::alloc::Global;

/// What the program finds outside: files, wires and doors, and a shelf for the wires of a replay.
pub trait World {
    /// The wires of targets.
    type Wire: Wire;
    /// The doors at which the bridge serves.
    type Door: Door;

    /// What is seen of it.
    ghost seen: { Self → Outside };

    /// Opens the file of this path, once.
    fn open_file(&mut self, path: Text) -> Result<(), Failed>
        requires { (seen self.old).world.asked ≡ None }
        ensures cause { HasCause (seen self.old).world.file_faults (seen self.new).world.file_faults result }
        ensures done { OnOk result (seen self.new ≡ with_file_open path (seen self.old)) }
        ensures failed { OnErr result (seen self.new
            ≡ with_no_file_open path (seen self.new).world.file_faults (seen self.old)) };

    /// Reads the file that is open.
    fn read_file(&mut self, into: &mut [u8]) -> Result<u32, Failed>
        requires opened { IsSome (seen self.old).world.file }
        requires some { 0 < length into.old }
        ensures bound { ReadsAtMost result into.new }
        ensures cause { HasCause (seen self.old).world.file_faults (seen self.new).world.file_faults result }
        ensures bytes { FileReads (seen self.old) (seen self.new) result into.new };

    /// Hands out the pair of wires of this number, to these addresses. Scrapes are due so many nanoseconds apart.
    fn wires(
        &mut self,
        alloc: Global,
        number: u32,
        scrape: &Address,
        post: &Address,
        interval: u64,
    ) -> Result<(Self::Wire, Self::Wire), Memory>
        requires { IsSome ((seen self.old).home number) }
        ensures pair { IfOk result (λ pair. (seen self.old).home number
            ≡ Some (Self.Wire.state pair.0, Self.Wire.state pair.1)) }
        ensures places { IfOk result (λ pair. IsHome number false (Self.Wire.state pair.0)
            × IsHome number true (Self.Wire.state pair.1)) }
        ensures out { OnOk result (seen self.new
            ≡ with_pair_out number (record { scrape = scrape.now; post = post.now }) (seen self.old)) }
        ensures kept { OnErr result (seen self.new ≡ seen self.old) };

    /// Takes a pair back.
    fn back(&mut self, number: u32, scrape: Self::Wire, post: Self::Wire)
        requires out { (seen self.old).home number ≡ None }
        requires given { IsSome ((seen self.old).given number) }
        requires scrape { IsHome number false (Self.Wire.state scrape) }
        requires post { IsHome number true (Self.Wire.state post) }
        ensures { seen self.new
            ≡ with_pair_home number (Self.Wire.state scrape, Self.Wire.state post) (seen self.old) };

    /// The door of this address, once.
    fn door(&mut self, at: Address) -> Result<Self::Door, Failed>
        requires { (seen self.old).world.door_at ≡ None }
        ensures cause { HasCause (seen self.old).world.door_faults (seen self.new).world.door_faults result }
        ensures asked { seen self.new ≡ with_door_asked at (seen self.new).world.door_faults
            ((seen self.new).coming at) (seen self.old) }
        ensures fresh { IfOk result (λ door. Self.Door.door door ≡ new_door ((seen self.old).coming at)) };

    /// Takes the door back.
    fn door_back(&mut self, door: Self::Door)
        requires { IsSome (seen self.old).world.door_at }
        ensures { seen self.new ≡ with_back_door (Self.Door.door door) (seen self.old) };

    /// Puts a pair of wires in memory on the shelf.
    fn shelve(&mut self, alloc: Global, scrape: MemoryWire, post: MemoryWire) -> Result<(), Memory>
        requires scrape { scrape.stage ≡ stages.Idle }
        requires post { post.stage ≡ stages.Idle }
        ensures done { OnOk result (seen self.new ≡ with_shelved_pair scrape post (seen self.old)) }
        ensures refused { OnErr result (seen self.new ≡ seen self.old) };

    /// Takes what is told of a run. It takes no memory and can't fail.
    fn notice(&mut self, notice: RunNotice)
        ensures { seen self.new ≡ seen self.old };

    /// Whether it has a shelf. Where it has none, a pair of wires that is handed in is given up.
    fn has_shelf(&self) -> bool
        ensures { result ≡ is_some (seen self.now).world.shelf };
}
