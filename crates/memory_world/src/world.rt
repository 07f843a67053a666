//! A world in memory: files, pairs of wires, doors, and a shelf.
ghost use Rattle.std.specs.Prelude.{◌≡◌, ◌↔◌, ◌<◌, ◌≤◌, ◌+◌, ◌-◌, ◌^◌, ◌==◌, ◌&&◌, ℕ, List as Seq, [], ◌∷◌, map, reverse, drop, length, All, true, false, Option, Some, None, option_map, bytes_eq, IsSome, IsErr, IfOk, OnOk, OnErr};
ghost use Rattle.std.specs.Io.{ReadsAtMost};
ghost use Rattle.bridge_ports.specs.Causes.{HasCause};
ghost use Rattle.bridge_ports.specs.declared.talk.Address.{Address as AnyAddress};
ghost use Rattle.bridge_ports.specs.declared.talk.Stage.TheVariants as stages;
ghost use Rattle.bridge_ports.specs.Worlds.{is_address};
ghost use Rattle.memory_world.specs.WorldParts.{IsListenRight, IsDoorOut};

use crate::keyed::{Keyed, place_of};
use crate::memory_files::MemoryFiles;
use crate::memory_pairs::MemoryPairs;
use bridge_ports::{
    Address, Door, Failed, MemoryDoor, MemoryFile, MemoryListen, MemoryPair, MemoryWire, RunNotice,
    Shelved, World,
};
use label_sets::{List, Memory, Text};
use std::alloc::Global;
use std::marker::Model;
use std::mem;

impl Keyed<Address> for MemoryListen {
    ghost has_key = { λ listen at. is_address listen.at at };

    fn is_of(&self, key: &Address) -> bool {
        self.at.host.as_slice() == key.host.as_slice()
            && (self.at.port == key.port && self.at.path.as_slice() == key.path.as_slice())
    }
}

/// Files by path, pairs of wires by number and doors by address. A number from 1 to 256 for which no pair was
/// given has one without replies.
#[derive(Drop)]
pub struct MemoryWorld {
    alloc: Global,
    files: MemoryFiles,
    pairs: MemoryPairs,
    doors: Vec<MemoryListen>,
    failing: List<u64>,
    calls: u64,
    file_faults: u64,
    door_faults: u64,
    asked: Option<Text>,
    door_at: Option<Address>,
    back_door: Option<MemoryDoor>,
    shelf: Vec<Shelved>,
}

impl Model for MemoryWorld {
    ghost use Rattle.std.specs.Prelude.{map, reverse, Some, All};
    ghost use Rattle.bridge_ports.specs.MemoryWorlds.{MemoryWorldState};
    ghost use Rattle.memory_world.specs.WorldParts.{listen_given, shelved_given, open_file, last_back, IsListenRight};

    ghost Value = { MemoryWorldState };

    ghost view = { λ w. record {
      world = record {
        file_faults = w.file_faults;
        door_faults = w.door_faults;
        asked = w.asked;
        file = open_file w.files.left;
        door_at = w.door_at;
        back_door = last_back w.back_door;
        shelf = Some (reverse (map shelved_given w.shelf.items));
      };
      files = w.files.files;
      pairs = w.pairs;
      doors = map listen_given w.doors.items;
      calls = w.calls;
      failing = w.failing;
    } };

    ghost invariant = { λ w. All IsListenRight w.doors.items };
}

impl MemoryWorld {
    ghost use Rattle.bridge_ports.specs.WorldMaking.{MayBeMade, new_world, shown_pair, on_shelf};
    ghost use Rattle.memory_world.specs.WorldParts.{file_given, fresh_pair, listen_given, shelved_given, both_wires, last_back};

    /// A world of these files, pairs and doors. `failing` names, counted from 1, the calls on files and doors
    /// that fail. It takes no memory.
    ///
    /// # Example
    ///
    /// ```rust
    /// let (path, bytes) = (Text::from_str(alloc, "a")?, Bytes::from_slice(alloc, b"text")?);
    /// let files = List::from_vec(Vec::from_array(alloc, [MemoryFile { path, bytes }])?)?;
    /// let none = List::new(alloc);
    /// let mut world = MemoryWorld::new(alloc, files, Vec::new(alloc), Vec::new(alloc), none);
    /// let mut into = [0u8; 3];
    /// world.open_file(Text::from_str(alloc, "a")?)?;
    /// assert_eq!(rt; world.read_file(&mut into), Ok(3));
    /// ```
    pub fn new(
        alloc: Global,
        files: List<MemoryFile>,
        pairs: Vec<MemoryPair>,
        doors: Vec<MemoryListen>,
        failing: List<u64>,
    ) -> MemoryWorld
        requires { MayBeMade (map file_given files) (map fresh_pair pairs.items) (map listen_given doors.items) }
        ensures { result ≡ new_world (map file_given files) (map fresh_pair pairs.items)
            (map listen_given doors.items) failing }
    {
        MemoryWorld {
            alloc,
            files: MemoryFiles::new(files),
            pairs: MemoryPairs::new(alloc, pairs),
            doors,
            failing,
            calls: 0,
            file_faults: 0,
            door_faults: 0,
            asked: None,
            door_at: None,
            back_door: None,
            shelf: Vec::new(alloc),
        }
    }

    /// The pairs that were put on the shelf, in order.
    pub fn shelf(&self) -> &[Shelved]
        ensures { on_shelf self.now ≡ Some (map shelved_given result.now) }
    {
        self.shelf.as_slice()
    }

    /// The door that came back, where one did.
    pub fn closed_door(&self) -> Option<&MemoryDoor>
        ensures { last_back (option_map (λ door. door.now) result) ≡ self.now.world.back_door }
    {
        self.back_door.as_ref()
    }

    /// The pair of this number, where it was given to the world or came back to it and is at home.
    pub fn home(&self, number: u32) -> Option<&Shelved>
        ensures { option_map (λ wires. both_wires wires.now) result ≡ shown_pair self.now.pairs number }
    {
        self.pairs.home(number)
    }
}

impl MemoryWorld {
    ghost use Rattle.std.specs.Prelude.{Contains};
    ghost use Rattle.bridge_ports.specs.InMemory.{one_more};

    // Counts a call on files or doors, and tells whether it is one of those that are to fail.
    fn count_call(&mut self) -> bool
        ensures counted { self.new ≡ record self.old { calls = one_more self.old.calls } }
        ensures named { (result ≡ true) ↔ Contains self.old.failing self.new.calls }
    {
        self.calls = self.calls.saturating_add(1);
        self.failing.as_slice().contains(&self.calls)
    }

    // Counts a fault of a call on files.
    fn fail_file(&mut self) -> Failed
        ensures counted { self.new ≡ record self.old
            { world = record self.old.world { file_faults = one_more self.old.world.file_faults } } }
        ensures later { self.old.world.file_faults ≤ self.new.world.file_faults }
    {
        self.file_faults = self.file_faults.saturating_add(1);
        Failed
    }

    // Counts a fault of a call on doors.
    fn fail_door(&mut self) -> Failed
        ensures { self.new ≡ record self.old
            { world = record self.old.world { door_faults = one_more self.old.world.door_faults } } }
    {
        self.door_faults = self.door_faults.saturating_add(1);
        Failed
    }
}

impl World for MemoryWorld {
    ghost use Rattle.memory_world.specs.WorldParts.{outside_of, seen_home};
    ghost use Rattle.bridge_ports.specs.WorldMaking.{IsCounted, MustFail, FailsToOpen};
    ghost use Rattle.bridge_ports.specs.MemoryWorlds.{pair_of, given_of, coming_of};
    ghost use Rattle.bridge_ports.specs.Plans.{seen_of};
    ghost use Rattle.bridge_ports.specs.Worlds.{IsHome, KeepsOthers};
    ghost use Rattle.bridge_ports.specs.Outside.{FileReads, with_file_open, with_no_file_open, with_pair_out, with_pair_home, with_door_asked, with_back_door, with_shelved_pair};
    ghost use Rattle.bridge_ports.specs.InMemory.{door_of};
    ghost use Rattle.bridge_ports.specs.Doors.{new_door};

    type Wire = MemoryWire;

    type Door = MemoryDoor;

    ghost seen = { outside_of };

    /// Fails where it is named to, and where there is no file of this path.
    fn open_file(&mut self, path: Text) -> Result<(), Failed>
        requires { self.old.world.asked ≡ None }
        ensures cause { HasCause self.old.world.file_faults self.new.world.file_faults result }
        ensures done { OnOk result (outside_of self.new ≡ with_file_open path (outside_of self.old)) }
        ensures failed { OnErr result (outside_of self.new
            ≡ with_no_file_open path self.new.world.file_faults (outside_of self.old)) }

        ensures pairs { self.new.pairs ≡ self.old.pairs }
        ensures counted { IsCounted self.old self.new }
        ensures fails { IsErr result ↔ FailsToOpen self.old self.new path }
    {
        let is_refused = self.count_call();
        let is_open = self.files.open(&path, is_refused);
        self.asked = Some(path);
        if is_open {
            return Ok(());
        }
        Err(self.fail_file())
    }

    /// Fails where it is named to.
    fn read_file(&mut self, into: &mut [u8]) -> Result<u32, Failed>
        requires opened { IsSome self.old.world.file }
        requires some { 0 < length into.old }
        ensures bound { ReadsAtMost result into.new }
        ensures cause { HasCause self.old.world.file_faults self.new.world.file_faults result }
        ensures bytes { FileReads (outside_of self.old) (outside_of self.new) result into.new }

        ensures pairs { self.new.pairs ≡ self.old.pairs }
        ensures counted { IsCounted self.old self.new }
        ensures fails { IsErr result ↔ MustFail self.old self.new }
    {
        if self.count_call() {
            return Err(self.fail_file());
        }
        Ok(self.files.read(into))
    }

    /// Makes a pair without replies for a number that none was given for.
    fn wires(
        &mut self,
        alloc: Global,
        number: u32,
        scrape: &Address,
        post: &Address,
        _interval: u64,
    ) -> Result<(MemoryWire, MemoryWire), Memory>
        requires { IsSome (seen_home self.old.pairs number) }
        ensures pair { IfOk result (λ pair. seen_home self.old.pairs number ≡ Some (seen_of pair.0, seen_of pair.1)) }
        ensures places { IfOk result (λ pair. IsHome number false (seen_of pair.0) × IsHome number true (seen_of pair.1)) }
        ensures out { OnOk result (outside_of self.new
            ≡ with_pair_out number (record { scrape = scrape.now; post = post.now }) (outside_of self.old)) }
        ensures kept { OnErr result (outside_of self.new ≡ outside_of self.old) }

        ensures wires { IfOk result (λ pair. pair_of self.old.pairs number ≡ Some pair) }
        ensures others { KeepsOthers number (pair_of self.old.pairs) (pair_of self.new.pairs) }
        ensures same { OnErr result (self.new ≡ self.old) }
    {
        match self.pairs.hand_out(alloc, number, scrape, post) {
            Ok(wires) => Ok((wires.scrape, wires.post)),
            Err(memory) => Err(memory),
        }
    }

    fn back(&mut self, number: u32, scrape: MemoryWire, post: MemoryWire)
        requires out { seen_home self.old.pairs number ≡ None }
        requires given { IsSome (given_of self.old.pairs number) }
        requires scrape { IsHome number false (seen_of scrape) }
        requires post { IsHome number true (seen_of post) }
        ensures seen { outside_of self.new ≡ with_pair_home number (seen_of scrape, seen_of post) (outside_of self.old) }

        ensures wires { pair_of self.new.pairs number ≡ Some (scrape, post) }
        ensures others { KeepsOthers number (pair_of self.old.pairs) (pair_of self.new.pairs) }
    {
        self.pairs.take_back(number, Shelved { scrape, post });
    }

    /// Fails where it is named to. At an address for which no door was given none comes.
    fn door(&mut self, at: Address) -> Result<MemoryDoor, Failed>
        requires { self.old.world.door_at ≡ None }
        ensures cause { HasCause self.old.world.door_faults self.new.world.door_faults result }
        ensures asked { outside_of self.new ≡ with_door_asked at self.new.world.door_faults
            (coming_of self.new.doors at) (outside_of self.old) }
        ensures fresh { IfOk result (λ door. door_of door ≡ new_door (coming_of self.old.doors at)) }

        ensures pairs { self.new.pairs ≡ self.old.pairs }
        ensures counted { IsCounted self.old self.new }
        ensures fails { IsErr result ↔ MustFail self.old self.new }
    {
        if self.count_call() {
            self.door_at = Some(at);
            return Err(self.fail_door());
        }
        let door = door_out(self.alloc, &mut self.doors, &at);
        self.door_at = Some(at);
        Ok(door)
    }

    fn door_back(&mut self, door: MemoryDoor)
        requires { IsSome self.old.world.door_at }
        ensures seen { outside_of self.new ≡ with_back_door (door_of door) (outside_of self.old) }

        ensures pairs { self.new.pairs ≡ self.old.pairs }
    {
        self.back_door = Some(door);
    }

    fn shelve(&mut self, _alloc: Global, scrape: MemoryWire, post: MemoryWire) -> Result<(), Memory>
        requires scrape { scrape.stage ≡ stages.Idle }
        requires post { post.stage ≡ stages.Idle }
        ensures done { OnOk result (outside_of self.new ≡ with_shelved_pair scrape post (outside_of self.old)) }
        ensures refused { OnErr result (outside_of self.new ≡ outside_of self.old) }

        ensures pairs { self.new.pairs ≡ self.old.pairs }
    {
        match self.shelf.reserve(1) {
            Ok(()) => {}
            Err(memory) => return Err(memory),
        }
        self.shelf.push_reserved(Shelved { scrape, post });
        Ok(())
    }

    /// Keeps nothing of it.
    fn notice(&mut self, _notice: RunNotice)
        ensures seen { outside_of self.new ≡ outside_of self.old }

        ensures same { self.new ≡ self.old }
    {}

    fn has_shelf(&self) -> bool {
        // Looked at so that its proof sees it.
        let _shelf = self.shelf.as_slice();
        true
    }
}

/// Takes the door of an address out of those that were given; where there is none, one at which none comes.
fn door_out(alloc: Global, doors: &mut Vec<MemoryListen>, at: &Address) -> MemoryDoor
    requires { All IsListenRight doors.old.items }
    ensures { IsDoorOut at.now doors.old.items doors.new.items result }
{
    let none = MemoryDoor::new(Vec::new(alloc));
    let place = place_of(doors.as_slice(), at);
    if place < doors.len() {
        return mem::replace(&mut doors[place].door, none);
    }
    none
}
