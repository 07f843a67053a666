//! The track of one target whose wires are in memory.
ghost use Rattle.std.specs.Prelude.{◌≡◌, true, false, IfOk, IsUtf8};
ghost use Rattle.bridge_ports.specs.Plans.{seen_of};
ghost use Rattle.bridge_ports.specs.Targets.{IsScraped};
ghost use Rattle.series_table.specs.HttpTalks.{talking};
ghost use Rattle.series_table.specs.Records.{IsFresh, IsTrack};
ghost use Rattle.series_table.specs.Tracks.{AreTracks, AreUnvisited};
ghost use Rattle.target_table.specs.Runs.{IsRightRun};
ghost use Rattle.scraper_pool.specs.Turns.{run_of};

use bridge_ports::{Address, End, MemoryReply, MemoryWire, Place, Settings, Target, Wire};
use label_sets::{Bytes, List, Memory, Text};
use scraper_pool::Track;
use series_table::TrackFault;
use std::alloc::{AllocError, Global};

const TAKEN: &[u8] = b"HTTP/1.1 200 OK\r\n\r\n";

/// Settings that take the largest page. A body is tried once, and a visit is due at once.
const WIDEST: Settings = Settings {
    keep: 2,
    tries: 1,
    limit: 200_000,
    max_page: 67_108_864,
    interval: 0,
};

/// A wire that answers each talk with these bytes.
fn wire(alloc: Global, post: bool, got: &[u8]) -> Result<MemoryWire, AllocError>
    ensures fresh { IfOk result (λ wire. IsFresh (seen_of wire)) }
    ensures place { IfOk result (λ wire. (seen_of wire).place ≡ record { number = 1; post = post }) }
{
    let reply = MemoryReply {
        at: 7,
        got: Bytes::from_slice(alloc, got)?,
        end: End::Ended,
    };
    let place = Place { number: 1, post };
    let none = List::new(alloc);
    Ok(MemoryWire::new(alloc, place, List::new(alloc), Some(reply), 4_096, none))
}

/// Where bodies are posted to.
fn collector(alloc: Global) -> Result<Address, Memory>
    ensures { IfOk result (λ address. IsUtf8 address.host) }
{
    Ok(Address {
        host: Bytes::from_slice(alloc, "h".as_bytes())?,
        port: 1,
        path: Bytes::from_slice(alloc, b"/p")?,
    })
}

fn target(alloc: Global) -> Result<Target, Memory>
    ensures { IfOk result IsScraped }
{
    let job = Text::from_str(alloc, "j")?;
    let instance = Text::from_str(alloc, "h:1")?;
    let address = Address {
        host: Bytes::from_slice(alloc, "h".as_bytes())?,
        port: 1,
        path: Bytes::from_slice(alloc, b"/p")?,
    };
    let target = Target::new(job, instance, address, false);
    let (_job, _instance, _address) = (target.job(), target.instance(), target.address());
    Ok(target)
}

/// The track of a target over these wires.
fn track_over<W: Wire + Drop>(
    alloc: Global,
    target: Target,
    scrape: W,
    post: W,
) -> Result<Track<W>, AllocError>
    requires scrape { IsFresh (W.state scrape) }
    requires post { IsFresh (W.state post) }
    ensures target { IfOk result (λ k. k.followed.target ≡ target) }
    ensures wires { IfOk result (λ k. (k.scrape ≡ W.state scrape) × (k.post ≡ W.state post)) }
    ensures unvisited { IfOk result (λ k. (k.counts.visits ≡ 0) × (k.halted ≡ false)) }
    ensures track { IfOk result (λ k. IsTrack talking k) }
{
    let to = collector(alloc)?;
    match Track::new(alloc, target, to, WIDEST, scrape, post) {
        Ok(track) => {
            track.facts();
            Ok(track)
        }
        Err(TrackFault::Memory(_scrape, _post)) => Err(AllocError),
    }
}

/// The track, whose scrapes are answered by a reply.
fn track(alloc: Global, reply: &[u8]) -> Result<Track<MemoryWire>, AllocError>
    ensures scrape { IfOk result (λ k. k.scrape.place ≡ record { number = 1; post = false }) }
    ensures post { IfOk result (λ k. k.post.place ≡ record { number = 1; post = true }) }
    ensures scraped { IfOk result (λ k. IsScraped k.followed.target) }
    ensures unvisited { IfOk result (λ k. (k.counts.visits ≡ 0) × (k.halted ≡ false)) }
    ensures track { IfOk result (λ k. IsTrack talking k) }
{
    let target = target(alloc)?;
    let scrape = wire(alloc, false, reply)?;
    let post = wire(alloc, true, TAKEN)?;
    track_over(alloc, target, scrape, post)
}

/// The tracks of a run of that target alone, visited once.
pub(crate) fn tracks(alloc: Global, reply: &[u8]) -> Result<Vec<Track<MemoryWire>>, AllocError>
    ensures run { IfOk result (λ tracks. IsRightRun (run_of 1 tracks.items)) }
    ensures tracks { IfOk result (λ tracks. AreTracks talking 0 (run_of 1 tracks.items).targets tracks.items) }
    ensures unvisited { IfOk result (λ tracks. AreUnvisited tracks.items) }
{
    let mut tracks = Vec::with_capacity(alloc, 1)?;
    match track(alloc, reply) {
        Ok(track) => {
            tracks.push_reserved(track);
            Ok(tracks)
        }
        Err(AllocError) => {
            tracks.destroy_empty();
            Err(AllocError)
        }
    }
}

/// Lets tracks go.
pub(crate) fn close(tracks: Vec<Track<MemoryWire>>) {
    let mut tracks = tracks;
    for _ in 0..tracks.len() {
        let (scrape, post) = tracks.take_last().into_wires();
        drop(scrape);
        drop(post);
    }
    tracks.destroy_empty();
}
