//! Wires over TCP: each talk has a connection of its own.
ghost use Rattle.std.specs.Prelude.{◌≡◌, ◌<◌, ◌≤◌, [], ◌∷◌, None, IfOk, IfSome, OnOk, OnErr, length, take};
ghost use Rattle.std.specs.Io.{ReadsAtMost, WritesAtMost};
ghost use Rattle.bridge_ports.specs.Causes.{HasCause};
ghost use Rattle.bridge_ports.specs.InMemory.{one_more};
ghost use Rattle.bridge_ports.specs.declared.talk.End.TheVariants.{ConnectFailed, WriteFailed, ReadFailed};
ghost use Rattle.bridge_ports.specs.declared.talk.Stage.TheVariants as stages;
ghost use Rattle.bridge_ports.specs.Talks.{made_ready, begun_at, sent_on, after_read, failed_at, left_at};
ghost use Rattle.std_edge.specs.Machine.{no_faults};

use crate::conn::NetConn;
use crate::deadline::{Deadline, MOST_POST, MOST_WAIT, nanos, steady_nanos};
use crate::lines::{Line, Lines};
use crate::pace::Pace;
use crate::peer::{PeerName, host_of};
use crate::steady_clock::SteadyClock;
use bridge_ports::{Address, Failed, Notice, Place, Reason, Source, Wire};
use label_sets::Memory;
use std::alloc::Global;
use std::marker::Model;
use std::net::{Ipv4Addr, Net, SocketAddr, TcpListener, TcpStream};
use std::time::{Clock, Duration};

/// The most addresses of a host that a connect tries.
pub const MOST_PEERS: usize = 4;

/// A client over TCP. A scrape takes at most [`MOST_SCRAPE`](crate::MOST_SCRAPE), a post [`MOST_POST`].
#[derive(Drop)]
pub struct NetWire<R> {
    machine: R,
    clock: SteadyClock,
    pace: Pace,
    deadline: Deadline,
    place: Place,
    to: Address,
    faults: u64,
    allowed: u32,
    room: u64,
    left: u64,
    reading: u64,
    has_begun: bool,
    conn: Option<NetConn<R>>,
    /// Why the last call failed that did.
    reason: Reason,
    lines: Lines,
}

impl<R> Model for NetWire<R> {
    ghost use Rattle.std.specs.Prelude.{None};
    ghost use Rattle.bridge_ports.specs.Talks.{WireState};
    ghost use Rattle.std_edge.specs.Machine.{stage_seen};

    ghost Value = { WireState };

    ghost view = { λ w. record {
      place = w.place;
      plan = None;
      faults = w.faults;
      allowed = w.allowed;
      room = w.room;
      stage = stage_seen w.has_begun w.conn;
      left = w.left;
      told = None;
    } };
}

impl<R: Drop> NetWire<R> {
    ghost use Rattle.std_edge.specs.Machine.{unused_wire};

    /// A wire in this place to this address, whose clock starts now. Of its scrapes no interval is known.
    pub fn new(machine: R, place: Place, to: Address) -> NetWire<R>
    where
        R: Clock,
        ensures { result ≡ unused_wire place }
    {
        let clock = SteadyClock::new(&machine);
        NetWire::with_clock(machine, clock, Pace::new(0), place, to)
    }

    /// A wire in this place to this address, with this clock and pace.
    pub(crate) fn with_clock(
        machine: R,
        clock: SteadyClock,
        pace: Pace,
        place: Place,
        to: Address,
    ) -> NetWire<R>
    where
        R: Clock,
        ensures { result ≡ unused_wire place }
    {
        NetWire {
            deadline: Deadline::after(&machine, 0),
            machine,
            clock,
            pace,
            place,
            to,
            faults: 0,
            allowed: 0,
            room: 0,
            left: 0,
            reading: 0,
            has_begun: false,
            conn: None,
            reason: Reason::Other,
            lines: Lines::new(),
        }
    }

    /// The next talks are with this address, at this pace.
    pub(crate) fn turn_to(&mut self, to: Address, pace: Pace)
        ensures { self.new ≡ self.old }
    {
        self.to = to;
        self.pace = pace;
        self.lines = Lines::new();
    }

    // Counts a fault, which ends the talk.
    fn fail(&mut self, reason: Reason) -> Failed
        ensures ended { self.new ≡ record self.old { stage = stages.Idle; faults = one_more self.old.faults } }
        ensures later { self.old.faults ≤ self.new.faults }
    {
        self.faults = self.faults.saturating_add(1);
        self.reason = reason;
        self.has_begun = false;
        self.conn = None;
        Failed
    }
}

impl<R: Clock + Drop> NetWire<R> {
    // Waits until a talk may begin that is due then, and sets its deadline.
    fn wait(&mut self, due: u64)
        ensures { self.new ≡ self.old }
    {
        let begin = self.earliest(due);
        if let Some(at) = self.clock.wait(&self.machine, begin) {
            self.reading = at;
        }
        self.pace.begin(self.reading);
        self.deadline = Deadline::after(&self.machine, self.most());
    }

    // When a talk begins at the earliest that is due then.
    fn earliest(&self, due: u64) -> u64 {
        if self.place.post {
            return due;
        }
        self.pace.next(due)
    }

    // How many milliseconds the talk takes at most.
    fn most(&self) -> u64 {
        if self.place.post {
            return MOST_POST;
        }
        self.pace.most()
    }

    // The line that a notice asks for, where one is due.
    fn line(&mut self, notice: Notice) -> Option<Line>
        ensures { self.new ≡ self.old }
    {
        match notice {
            Notice::Visited { scrape, body } => {
                let now = steady_nanos(&self.machine)?;
                self.lines.visited(scrape, body, self.reason, now)
            }
            Notice::Halted => self.lines.halted(),
        }
    }

    // How many milliseconds a read stands still at most.
    fn patience(&self) -> u64 {
        if self.place.post {
            return MOST_POST;
        }
        MOST_WAIT
    }
}

impl<R: Eprint> NetWire<R> {
    // Writes a line on the target to the error output. Where that fails the line is lost.
    fn say(&self, line: Line) {
        let name = PeerName {
            host: self.to.host.as_slice(),
            port: self.to.port,
        };
        let _ = eprintln!(self.machine; "bridge: target {} {name}: {line}", self.place.number);
    }
}

impl<R> Wire for NetWire<R>
where
    R: Net<Listener = TcpListener, Stream = TcpStream> + Clock + Eprint + Copy + Send + Drop,
{
    ghost state = { λ w. w };

    fn ready(&mut self, _alloc: Global, count: u32, room: u64) -> Result<(), Memory> {
        self.allowed = count;
        self.room = room;
        Ok(())
    }

    /// At least half an interval lies between the beginnings of two scrapes. Where the clock can't be read, or a sleep
    /// is cut short too often, it answers the reading before, 0 at first.
    fn begin(&mut self, due: u64) -> u64 {
        self.wait(due);
        self.allowed -= 1;
        self.left = self.room;
        self.has_begun = true;
        self.reading
    }

    /// Tries up to [`MOST_PEERS`] addresses of the host in turn, which share [`MOST_WAIT`].
    fn connect(&mut self) -> Result<(), Failed>
        requires { self.old.stage ≡ stages.Begun }
        ensures cause { HasCause self.old.faults self.new.faults result }
        ensures done { OnOk result (self.new ≡ record self.old { stage = stages.Connected }) }
        ensures failed { OnErr result (self.new ≡ failed_at ConnectFailed self.new.faults self.old) }

        ensures fault { OnErr result (self.new.faults ≡ one_more self.old.faults) }
    {
        match connected(self.machine, &self.to, self.deadline, self.patience()) {
            Ok(conn) => {
                self.conn = Some(conn);
                Ok(())
            }
            Err(reason) => Err(self.fail(reason)),
        }
    }

    /// Where the peer has answered and takes no more, the rest counts as sent, so that its reply is read.
    fn write(&mut self, piece: &[u8]) -> Result<u32, Failed>
        requires connected { self.old.stage ≡ stages.Connected }
        requires room { length piece.now ≤ self.old.left }
        ensures bound { WritesAtMost result piece.now }
        ensures progress { IfOk result (λ count. count ≡ 0 → piece.now ≡ []) }
        ensures cause { HasCause self.old.faults self.new.faults result }
        ensures done { IfOk result (λ count. self.new ≡ sent_on (take count piece.now) self.old) }
        ensures failed { OnErr result (self.new ≡ failed_at WriteFailed self.new.faults self.old) }

        ensures fault { OnErr result (self.new.faults ≡ one_more self.old.faults) }
    {
        let conn = self.conn.as_mut().unwrap();
        match conn.send(piece) {
            Ok(count) => {
                self.left -= count as u64;
                Ok(count)
            }
            Err(Failed) => {
                let reason = conn.reason();
                Err(self.fail(reason))
            }
        }
    }

    fn read(&mut self, into: &mut [u8]) -> Result<u32, Failed>
        requires connected { self.old.stage ≡ stages.Connected }
        requires some { 0 < length into.old }
        ensures bound { ReadsAtMost result into.new }
        ensures cause { HasCause self.old.faults self.new.faults result }
        ensures done { IfOk result (λ count. self.new ≡ after_read (take count into.new) self.old) }
        ensures failed { OnErr result (self.new ≡ failed_at ReadFailed self.new.faults self.old) }

        ensures fault { OnErr result (self.new.faults ≡ one_more self.old.faults) }
    {
        let conn = self.conn.as_mut().unwrap();
        match conn.read(into) {
            Ok(0) => {
                self.leave();
                Ok(0)
            }
            Ok(count) => Ok(count),
            Err(Failed) => {
                let reason = conn.reason();
                Err(self.fail(reason))
            }
        }
    }

    fn leave(&mut self) {
        self.has_begun = false;
        self.conn = None;
    }

    /// Writes a line to the error output, at most one a minute, where how the target stands changed, and one where it is
    /// halted.
    fn notice(&mut self, notice: Notice) {
        if let Some(line) = self.line(notice) {
            self.say(line);
        }
    }
}

/// A connection to the first of the host's addresses that answers, or why there is none. They share what a connect may
/// take.
fn connected<R: Net<Listener = TcpListener, Stream = TcpStream> + Clock + Drop>(
    machine: R,
    to: &Address,
    deadline: Deadline,
    patience: u64,
) -> Result<NetConn<R>, Reason>
    ensures { IfOk result (λ conn. conn ≡ no_faults) }
{
    let stream = stream_to(&machine, to, deadline)?;
    match NetConn::over(machine, stream, deadline, patience) {
        Ok(conn) => Ok(conn),
        Err(error) => Err(Reason::of(error.kind())),
    }
}

/// A stream to the first of the host's addresses that answers, or why there is none.
fn stream_to<R: Net<Listener = TcpListener, Stream = TcpStream> + Clock>(
    machine: &R,
    to: &Address,
    deadline: Deadline,
) -> Result<TcpStream, Reason> {
    let Some(host) = host_of(to) else {
        return Err(Reason::Unresolved);
    };
    let mut found = [SocketAddr::from((Ipv4Addr::UNSPECIFIED, 0)); MOST_PEERS];
    let Ok(count) = machine.lookup_host(host, to.port, &mut found) else {
        return Err(Reason::Unresolved);
    };
    let Some(left) = deadline.left(machine, MOST_WAIT) else {
        return Err(Reason::TimedOut);
    };
    first_stream(machine, &found[..count], left)
}

/// A stream to the first of these peers that answers, or why the last has none. They share this time.
fn first_stream<R: Net<Listener = TcpListener, Stream = TcpStream>>(
    net: &R,
    peers: &[SocketAddr],
    time: Duration,
) -> Result<TcpStream, Reason> {
    let each = Duration::from_nanos(nanos(time) / peers.len().max(1) as u64);
    let mut reason = Reason::Unresolved;
    for peer in peers {
        match net.connect_timeout(*peer, each) {
            Ok(stream) => return Ok(stream),
            Err(error) => reason = Reason::of(error.kind()),
        }
    }
    Err(reason)
}
