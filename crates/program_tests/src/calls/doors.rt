//! Runs over wires in memory, beside a door.
ghost use Rattle.std.specs.Prelude.{◌≡◌, ◌≤◌, length, IfOk};
ghost use Rattle.bridge_ports.specs.InMemory.{IsFreshConn};
ghost use Rattle.bridge_ports.specs.Plans.{seen_of};
ghost use Rattle.bridge_ports.specs.WorldMaking.{IsRightListen, IsRightPair};
ghost use Rattle.series_table.specs.Records.{IsFresh};
ghost use Rattle.memory_world.specs.WorldParts.{fresh_pair, listen_given, outside_of};
ghost use Rattle.bridge_program.specs.Ran.{IsUnasked};

use crate::calls::bare_runs::strings;
use bridge_ports::{
    Address, Conn, Door, End, MemoryConn, MemoryDoor, MemoryFile, MemoryListen, MemoryPair,
    MemoryReply, MemorySink, MemorySource, MemoryWire, Place, Shelved, World,
};
use bridge_program::bridge;
use label_sets::{Bytes, List, Memory, Text};
use memory_world::MemoryWorld;
use std::alloc::{AllocError, Global};
use std::sync::Wait;
use std::thread::Threads;

const TWO_ROUNDS: &str = "collector = \"http://127.0.0.1:4318\"
rounds = 2
listen = \"127.0.0.1:9464\"
pages = 1
";

/// What each configuration says of its targets.
const TWO_TARGETS: &[u8] =
    b"[[target]]\njob = \"a\"\nurl = \"http://h1:80/metrics\"\n[[target]]\njob = \"b\"\nurl = \"http://h2:80/metrics\"\n";

const PAGE: &[u8] =
    b"HTTP/1.1 200 OK\r\nContent-Type: text/plain\r\nContent-Length: 4\r\n\r\nx 1\n";

const TAKEN: &[u8] = b"HTTP/1.1 200 OK\r\nContent-Length: 0\r\n\r\n";

/// A wire that answers each talk with this reply.
fn wire(alloc: Global, number: u32, post: bool, got: &[u8]) -> Result<MemoryWire, Memory>
    ensures place { IfOk result (λ wire. wire.place ≡ record { number = number; post = post }) }
    ensures fresh { IfOk result (λ wire. IsFresh (seen_of wire)) }
{
    let reply = MemoryReply {
        at: 10,
        got: Bytes::from_slice(alloc, got)?,
        end: End::Ended,
    };
    let place = Place { number, post };
    Ok(MemoryWire::new(
        alloc,
        place,
        List::new(alloc),
        Some(reply),
        100,
        List::new(alloc),
    ))
}

/// The pair of wires of a number.
fn pair(alloc: Global, number: u32) -> Result<MemoryPair, Memory>
    requires { (1 ≤ number) × (number ≤ 256) }
    ensures number { IfOk result (λ pair. pair.number ≡ number) }
    ensures right { IfOk result (λ pair. IsRightPair (fresh_pair pair)) }
    ensures scrape { IfOk result (λ pair. IsFresh (seen_of pair.wires.scrape)) }
    ensures post { IfOk result (λ pair. IsFresh (seen_of pair.wires.post)) }
{
    let scrape = wire(alloc, number, false, PAGE)?;
    let post = match wire(alloc, number, true, TAKEN) {
        Ok(post) => post,
        Err(AllocError) => {
            drop(scrape);
            return Err(AllocError);
        }
    };
    Ok(MemoryPair {
        number,
        wires: Shelved { scrape, post },
    })
}

/// A connection over which the page is asked for.
fn conn(alloc: Global) -> Result<MemoryConn, Memory>
    ensures { IfOk result IsFreshConn }
{
    let request = Bytes::from_slice(alloc, b"GET /federate HTTP/1.1\r\n\r\n")?;
    let sink = MemorySink::new(alloc, 1_000, List::new(alloc))?;
    Ok(MemoryConn::new(MemorySource::new(request, List::new(alloc)), sink))
}

/// A door of the configuration's address, at which one connection comes.
fn listen(alloc: Global) -> Result<MemoryListen, Memory>
    ensures { IfOk result (λ listen. IsRightListen (listen_given listen)) }
{
    let at = Address {
        host: Bytes::from_slice(alloc, b"127.0.0.1")?,
        port: 9464,
        path: Bytes::from_slice(alloc, b"")?,
    };
    let door = MemoryDoor::new(Vec::from_array(alloc, [conn(alloc)?])?);
    Ok(MemoryListen { at, door })
}

/// The file of a configuration that begins so.
fn file(alloc: Global, start: &[u8]) -> Result<List<MemoryFile>, Memory>
    ensures { IfOk result (λ files. length files ≡ 1) }
{
    let mut text = Vec::from_slice(alloc, start)?;
    text.extend_from_slice(TWO_TARGETS)?;
    let file = MemoryFile {
        path: Text::from_str(alloc, "bridge.toml")?,
        bytes: Bytes::from_vec(text),
    };
    List::from_vec(Vec::from_array(alloc, [file])?)
}

/// A world of a file whose configuration begins so, the wires of its two targets and a door, of whose calls on files and
/// doors those of these numbers fail.
pub(crate) fn failing_world(
    alloc: Global,
    start: &[u8],
    failing: List<u64>,
) -> Result<MemoryWorld, Memory>
    ensures { IfOk result (λ world. IsUnasked (outside_of world)) }
{
    let (first, second) = (pair(alloc, 1)?, pair(alloc, 2)?);
    let pairs = Vec::from_array(alloc, [first, second])?;
    let doors = Vec::from_array(alloc, [listen(alloc)?])?;
    let files = file(alloc, start)?;
    Ok(MemoryWorld::new(alloc, files, pairs, doors, failing))
}

/// The same where no call fails.
pub(crate) fn world(alloc: Global, start: &[u8]) -> Result<MemoryWorld, Memory>
    ensures { IfOk result (λ world. IsUnasked (outside_of world)) }
{
    failing_world(alloc, start, List::new(alloc))
}

/// The status of a run of the configuration in a world of which nothing was asked, and whether its output is this.
pub(crate) fn ending_in<R: Threads + Wait + Sync, K: Conn, E: Door<Conn = K>, W: World<Door = E>>(
    rt: &R,
    alloc: Global,
    world: &mut W,
    wanted: &str,
) -> Result<(u8, bool), Memory>
    requires { IsUnasked (W.seen world.old) }
{
    let words = strings(alloc, &["run", "bridge.toml"])?;
    let mut input = MemorySource::new(Bytes::from_slice(alloc, b"")?, List::new(alloc));
    let mut output = match MemorySink::new(alloc, 1_000, List::new(alloc)) {
        Ok(output) => output,
        Err(AllocError) => {
            drop(input);
            return Err(AllocError);
        }
    };
    let status = bridge(rt, alloc, words.as_slice(), world, &mut input, &mut output);
    let is_wanted = output.held() == wanted.as_bytes();
    drop(output);
    drop(input);
    drop(words);
    Ok((status, is_wanted))
}

const TWO_VISITS: &str =
    "target 1 a h1:80 visits 2 failed 0 points 6 markers 0 accepted 2 refused 0 givenup 0 halted 0
target 2 b h2:80 visits 2 failed 0 points 6 markers 0 accepted 2 refused 0 givenup 0 halted 0
all visits 4 failed 0 points 12 markers 0 accepted 4 refused 0 givenup 0 halted 0
served 1
";

/// The body of the first scrape of the first target.
const FIRST_BODY: &[u8] =
    br#"{"resourceMetrics":[{"resource":{"attributes":[{"key":"service.name","value":{"stringValue":"a"}},{"key":"service.instance.id","value":{"stringValue":"h1:80"}},{"key":"server.address","value":{"stringValue":"h1"}},{"key":"server.port","value":{"intValue":"80"}},{"key":"url.scheme","value":{"stringValue":"http"}}]},"scopeMetrics":[{"scope":{"name":"bridge"},"metrics":[{"name":"x","gauge":{"dataPoints":[{"timeUnixNano":"10","asDouble":1}]}}]},{"scope":{"name":"bridge.target"},"metrics":[{"name":"up","gauge":{"dataPoints":[{"timeUnixNano":"10","asDouble":1}]}},{"name":"scrape_samples_scraped","gauge":{"dataPoints":[{"timeUnixNano":"10","asDouble":1}]}}]}]}]}"#;

/// How many posts the wire of a target made in a world, and whether the first ended in this body.
fn posted(world: &MemoryWorld, number: u32, body: &[u8]) -> (u64, bool) {
    let Some(pair) = world.home(number) else {
        return (0, false);
    };
    let count = pair.post.finished();
    if count == 0 {
        return (0, false);
    }
    let ends_so = match pair.post.sent(1) {
        Some(sent) => sent.ends_with(body),
        None => false,
    };
    (count, ends_so)
}

/// Whether the door that came back has one connection, which holds a page.
fn holds_a_page(world: &MemoryWorld) -> bool {
    let Some(door) = world.closed_door() else {
        return false;
    };
    match door.back() {
        [conn] => conn.held().starts_with(b"HTTP/1.1 200 OK\r\n"),
        _ => false,
    }
}

/// What a run beside a door came to.
#[derive(Clone, Copy, PartialEq, Eq)]
struct Came {
    /// Its status, and whether its output is as wanted.
    ending: (u8, bool),
    /// How many bodies the first target posted, and whether the first of them ends as wanted.
    posted: (u64, bool),
    /// Whether the one connection at the door holds a page.
    holds_a_page: bool,
}

/// What a run over wires in memory comes to, beside a door.
fn came_beside_a_door<R: Threads + Wait + Sync>(rt: &R, alloc: Global) -> Result<Came, Memory> {
    let mut world = world(alloc, TWO_ROUNDS.as_bytes())?;
    let ending = ending_in(rt, alloc, &mut world, TWO_VISITS);
    let posted = posted(&world, 1, FIRST_BODY);
    let holds_a_page = holds_a_page(&world);
    drop(world);
    match ending {
        Ok(ending) => Ok(Came {
            ending,
            posted,
            holds_a_page,
        }),
        Err(memory) => Err(memory),
    }
}

#[test]
fn two_targets_are_visited_beside_a_door(rt: HostRuntime) {
    const WANTED: Came = Came {
        ending: (0, true),
        posted: (2, true),
        holds_a_page: true,
    };
    assert!(rt; came_beside_a_door(&rt, rt.alloc()) == Ok(WANTED));
}

/// The status of a run whose door can't be had, which the world is asked for behind the three calls on the file, and
/// whether its output is this.
fn ending_without_its_door<R: Threads + Wait + Sync>(
    rt: &R,
    alloc: Global,
    wanted: &str,
) -> Result<(u8, bool), Memory> {
    let failing = List::from_vec(Vec::from_array(alloc, [4])?)?;
    let mut world = failing_world(alloc, TWO_ROUNDS.as_bytes(), failing)?;
    let ending = ending_in(rt, alloc, &mut world, wanted);
    drop(world);
    ending
}

const TWO_VISITS_UNSERVED: &str =
    "target 1 a h1:80 visits 2 failed 0 points 6 markers 0 accepted 2 refused 0 givenup 0 halted 0
target 2 b h2:80 visits 2 failed 0 points 6 markers 0 accepted 2 refused 0 givenup 0 halted 0
all visits 4 failed 0 points 12 markers 0 accepted 4 refused 0 givenup 0 halted 0
served 0
";

#[test]
fn a_door_that_fails_is_no_fault_of_a_run(rt: HostRuntime) {
    assert!(rt; ending_without_its_door(&rt, rt.alloc(), TWO_VISITS_UNSERVED) == Ok((0, true)));
}
