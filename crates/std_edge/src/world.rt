//! The world of the machine.
ghost use Rattle.std.specs.Prelude.{◌≡◌, ◌≤◌, ◌<◌, length, Some, None, IsSome, IfOk, OnOk, OnErr};
ghost use Rattle.std.specs.Io.{ReadsAtMost};
ghost use Rattle.bridge_ports.specs.Causes.{HasCause};
ghost use Rattle.bridge_ports.specs.InMemory.{one_more};

use crate::door::{DoorCounts, NetDoor};
use crate::pace::Pace;
use crate::pairs::NetPairs;
use crate::peer::{PeerName, host_of};
use crate::steady_clock::SteadyClock;
use crate::stream::StdStream;
use crate::wire::NetWire;
use bridge_ports::{Address, Failed, MemoryWire, Reason, RunNotice, Source, World};
use label_sets::{Memory, Text};
use std::alloc::Global;
use std::fs::{File, Files};
use std::marker::Model;
use std::net::{Net, TcpListener, TcpStream};
use std::time::Clock;

/// Files by path, wires to the addresses that are asked for, and a door at an address of the machine.
#[derive(Drop)]
pub struct StdWorld<R> {
    machine: R,
    clock: SteadyClock,
    pairs: NetPairs<R>,
    file: Option<File>,
    file_faults: u64,
    asked: Option<Text>,
    door_faults: u64,
    door_at: Option<Address>,
    back_door: DoorCounts,
    /// Why the last call on files failed that did.
    reason: Reason,
    /// Up to which line and column the file was a document of TOML that is none.
    broken_at: Option<(u32, u32)>,
}

impl<R> Model for StdWorld<R> {
    ghost use Rattle.std_edge.specs.World.{MachineState, open_seen};
    ghost use Rattle.std_edge.specs.DoorCounts.{back_seen};

    ghost Value = { MachineState };

    ghost view = { λ w. record {
      file_faults = w.file_faults;
      door_faults = w.door_faults;
      asked = w.asked;
      file = open_seen w.file;
      door_at = w.door_at;
      back_door = back_seen w.back_door;
      pairs = w.pairs;
    } };
}

impl<R: Drop> StdWorld<R> {
    ghost use Rattle.std_edge.specs.World.{new_machine};

    /// The world of this machine, of which nothing was asked yet. The clock of its wires starts now.
    ///
    /// # Example
    ///
    /// ```rust
    /// let mut world = StdWorld::new(rt, alloc);
    /// let mut into = [0u8; 3];
    /// world.open_file(Text::from_str(alloc, "/dev/zero")?)?;
    /// assert_eq!(rt; world.read_file(&mut into), Ok(3));
    /// ```
    pub fn new(machine: R, alloc: Global) -> StdWorld<R>
    where
        R: Clock,
        ensures { result ≡ new_machine }
    {
        StdWorld {
            clock: SteadyClock::new(&machine),
            machine,
            pairs: NetPairs::new(alloc),
            file: None,
            file_faults: 0,
            asked: None,
            door_faults: 0,
            door_at: None,
            back_door: DoorCounts::none(),
            reason: Reason::Other,
            broken_at: None,
        }
    }

    /// Why the last call on files failed that did.
    pub fn reason(&self) -> Reason {
        self.reason
    }

    /// The line and the column up to which the file was a document of TOML, where it is none.
    pub fn broken_at(&self) -> Option<(u32, u32)> {
        self.broken_at
    }

    // Counts a fault of a call on files.
    fn fail_file(&mut self, reason: Reason) -> Failed
        ensures counted { self.new ≡ record self.old { file_faults = one_more self.old.file_faults } }
        ensures later { self.old.file_faults ≤ self.new.file_faults }
    {
        self.file_faults = self.file_faults.saturating_add(1);
        self.reason = reason;
        Failed
    }

    // Counts a fault of a call on doors.
    fn fail_door(&mut self) -> Failed
        ensures counted { self.new ≡ record self.old { door_faults = one_more self.old.door_faults } }
        ensures later { self.old.door_faults ≤ self.new.door_faults }
    {
        self.door_faults = self.door_faults.saturating_add(1);
        Failed
    }
}

impl<R> World for StdWorld<R>
where
    R: Net<Listener = TcpListener, Stream = TcpStream>
        + Clock
        + Files<File = File>
        + Eprint
        + Copy
        + Send
        + Drop,
{
    ghost use Rattle.bridge_ports.specs.Outside.{FileReads, with_file_open, with_no_file_open, with_door_asked};
    ghost use Rattle.bridge_ports.specs.Doors.{new_door};
    ghost use Rattle.std_edge.specs.World.{machine_outside};

    type Wire = NetWire<R>;

    type Door = NetDoor<R>;

    ghost seen = { machine_outside };

    fn open_file(&mut self, path: Text) -> Result<(), Failed>
        requires { self.old.asked ≡ None }
        ensures cause { HasCause self.old.file_faults self.new.file_faults result }
        ensures done { OnOk result (machine_outside self.new ≡ with_file_open path (machine_outside self.old)) }
        ensures failed { OnErr result (machine_outside self.new
            ≡ with_no_file_open path self.new.file_faults (machine_outside self.old)) }

        ensures fault { OnErr result (self.new.file_faults ≡ one_more self.old.file_faults) }
    {
        let opened = File::open(&self.machine, path.as_str());
        self.asked = Some(path);
        match opened {
            Ok(file) => {
                self.file = Some(file);
                Ok(())
            }
            Err(error) => {
                self.file = None;
                Err(self.fail_file(Reason::of(error.kind())))
            }
        }
    }

    fn read_file(&mut self, into: &mut [u8]) -> Result<u32, Failed>
        requires opened { IsSome self.old.file }
        requires some { 0 < length into.old }
        ensures bound { ReadsAtMost result into.new }
        ensures cause { HasCause self.old.file_faults self.new.file_faults result }
        ensures bytes { FileReads (machine_outside self.old) (machine_outside self.new) result into.new }

        ensures fault { OnErr result (self.new.file_faults ≡ one_more self.old.file_faults) }
    {
        let mut source = StdStream::new(self.file.as_ref().unwrap());
        match source.read(into) {
            Ok(count) => Ok(count),
            Err(Failed) => {
                let reason = source.reason();
                Err(self.fail_file(reason))
            }
        }
    }

    fn wires(
        &mut self,
        _alloc: Global,
        number: u32,
        scrape: &Address,
        post: &Address,
        interval: u64,
    ) -> Result<(NetWire<R>, NetWire<R>), Memory> {
        let (machine, clock, pace) = (self.machine, self.clock, Pace::new(interval));
        let given = self
            .pairs
            .hand_out(machine, clock, pace, number, scrape, post);
        match given {
            Ok(pair) => Ok(pair),
            Err(memory) => Err(memory),
        }
    }

    fn back(&mut self, number: u32, scrape: NetWire<R>, post: NetWire<R>) {
        self.pairs.take_back(number, scrape, post);
    }

    /// A door at the first address of the host that can be had. Where there is none, a line on the error output says so.
    fn door(&mut self, at: Address) -> Result<NetDoor<R>, Failed>
        requires { self.old.door_at ≡ None }
        ensures cause { HasCause self.old.door_faults self.new.door_faults result }
        ensures asked { machine_outside self.new
            ≡ with_door_asked at self.new.door_faults None (machine_outside self.old) }
        ensures fresh { IfOk result (λ door. door ≡ new_door None) }

        ensures fault { OnErr result (self.new.door_faults ≡ one_more self.old.door_faults) }
    {
        let listener = listener_at(&self.machine, &at);
        self.door_at = Some(at);
        match listener {
            Some(listener) => Ok(NetDoor::new(self.machine, listener)),
            None => Err(self.fail_door()),
        }
    }

    /// No peer connects there from now on.
    fn door_back(&mut self, door: NetDoor<R>) {
        self.back_door = door.counts();
    }

    /// The machine has no shelf: the pair is given up.
    fn shelve(
        &mut self,
        _alloc: Global,
        _scrape: MemoryWire,
        _post: MemoryWire,
    ) -> Result<(), Memory> {
        Ok(())
    }

    /// Writes to the error output how many targets are scraped how often. What a faulty configuration told is kept for
    /// [`StdWorld::broken_at`].
    fn notice(&mut self, notice: RunNotice) {
        match notice {
            RunNotice::Begun {
                targets,
                interval_ms,
            } => {
                let _ = eprintln!(self.machine;
                    "bridge: targets {targets}, each scraped every {interval_ms} ms"
                );
            }
            RunNotice::Faulty { broken_at } => self.broken_at = broken_at,
        }
    }

    fn has_shelf(&self) -> bool {
        false
    }
}

/// Listens at an address, where that can be had. Else a line on the error output says why not.
fn listener_at<R: Net<Listener = TcpListener, Stream = TcpStream> + Eprint>(
    machine: &R,
    at: &Address,
) -> Option<TcpListener> {
    match bound_at(machine, at) {
        Ok(listener) => Some(listener),
        Err(reason) => {
            let name = PeerName {
                host: at.host.as_slice(),
                port: at.port,
            };
            let _ = eprintln!(machine; "bridge: no page is served at {name}: {}", reason.words());
            None
        }
    }
}

/// Listens at an address, where that can be had.
fn bound_at<R: Net<Listener = TcpListener, Stream = TcpStream>>(
    machine: &R,
    at: &Address,
) -> Result<TcpListener, Reason> {
    let Some(host) = host_of(at) else {
        return Err(Reason::Unresolved);
    };
    match TcpListener::bind(machine, (host, at.port)) {
        Ok(listener) => Ok(listener),
        Err(error) => Err(Reason::of(error.kind())),
    }
}
