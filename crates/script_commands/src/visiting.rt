//! The tracks of a script's targets, over wires that answer what the script says, and what is left of them.
ghost use Rattle.std.specs.Prelude.{◌≡◌, ◌+◌, ◌<◌, IfOk};
ghost use Rattle.std.specs.List.{AllZip};
ghost use Rattle.replay_script.specs.RightScripts.{IsRightHeader, IsRightScript};
ghost use Rattle.bridge_ports.specs.Targets.{most_targets};
ghost use Rattle.series_table.specs.HttpTalks.{talking};
ghost use Rattle.series_table.specs.Records.{IsTrack};
ghost use Rattle.series_table.specs.Tracks.{AreTracks, AreUnvisited};
ghost use Rattle.script_commands.specs.Rounds.{new_scrape_wire, new_post_wire, script_followed, script_targets, AreWiresOf, IsUnvisited, IsLeftOf};

use bridge_ports::{MemoryWire, Place, Shelved};
use label_sets::{List, Memory};
use replay_script::{Header, Script, ScriptTarget, collector, default_reply, settings};
use run_report::{TargetEnd, ends_of};
use series_table::{Track, TrackFault};
use std::alloc::{AllocError, Global};

/// A target of a script, which is to be visited.
#[derive(Clone, Copy)]
pub(crate) struct Turn<'a> {
    pub(crate) header: &'a Header,
    pub(crate) target: &'a ScriptTarget,
    /// Its place among the targets, counted from 0.
    pub(crate) place: u32,
    /// Whether what is posted for it is kept.
    pub(crate) keeps: bool,
}

/// The wire that answers the scrapes of a target.
fn scrape_wire(alloc: Global, turn: Turn<'_>) -> Result<MemoryWire, Memory>
    requires right { IsRightHeader turn.header.now }
    requires few { turn.place < most_targets }
    ensures { IfOk result (λ wire. wire ≡ new_scrape_wire turn.entry.header.now turn.entry.target.now (turn.entry.place + 1)) }
{
    let replies = turn.target.scrapes.copy()?;
    let place = Place {
        number: turn.place + 1,
        post: false,
    };
    Ok(MemoryWire::new(
        alloc,
        place,
        replies,
        None,
        turn.header.cut,
        List::new(alloc),
    ))
}

/// The wire that answers the posts of a target.
fn post_wire(alloc: Global, turn: Turn<'_>) -> Result<MemoryWire, Memory>
    requires right { IsRightHeader turn.header.now }
    requires few { turn.place < most_targets }
    ensures { IfOk result (λ wire. wire ≡ new_post_wire turn.entry.keeps turn.entry.header.now turn.entry.target.now (turn.entry.place + 1)) }
{
    let replies = turn.target.posts.copy()?;
    let after = default_reply(alloc)?;
    let place = Place {
        number: turn.place + 1,
        post: true,
    };
    let mut wire = MemoryWire::new(
        alloc,
        place,
        replies,
        Some(after),
        turn.header.cut,
        List::new(alloc),
    );
    if !turn.keeps {
        wire.forget();
    }
    Ok(wire)
}

/// The track of a target before its first visit.
pub(crate) fn new_track(alloc: Global, turn: Turn<'_>) -> Result<Track<MemoryWire>, Memory>
    requires right { IsRightHeader turn.header.now }
    requires few { turn.place < most_targets }
    ensures { IfOk result (IsUnvisited turn.entry.place (script_followed turn.entry.keeps turn.entry.header.now turn.entry.target.now)) }
{
    let scraped = turn.target.target.copy()?;
    let to = collector(alloc)?;
    let scrape = scrape_wire(alloc, turn)?;
    let post = post_wire(alloc, turn)?;
    match Track::new(alloc, scraped, to, settings(turn.header), scrape, post) {
        Ok(track) => {
            track.facts();
            Ok(track)
        }
        Err(TrackFault::Memory(scrape, post)) => {
            drop(scrape);
            drop(post);
            Err(AllocError)
        }
    }
}

/// Gives up tracks with their wires.
pub fn give_up(tracks: Vec<Track<MemoryWire>>) {
    let mut left = tracks;
    for _ in 0..left.len() {
        let (_scrape, _post) = left.take_last().into_wires();
    }
    left.destroy_empty();
}

/// The tracks of a script's targets in order, before their first visits. What they post is kept where that is asked
/// for.
///
/// # Errors
///
/// Want of memory.
pub fn new_tracks(
    alloc: Global,
    script: &Script,
    keeps: bool,
) -> Result<Vec<Track<MemoryWire>>, Memory>
    requires { IsRightScript script.now }
    ensures are { IfOk result (λ tracks. AreTracks talking 0 (script_targets keeps script.now.header script.now.targets) tracks.items) }
    ensures unvisited { IfOk result (λ tracks. AreUnvisited tracks.items) }
{
    let targets = script.targets.as_slice();
    let mut tracks = Vec::with_capacity(alloc, targets.len())?;
    let mut at = 0usize;
    while at < targets.len() {
        let turn = Turn {
            header: &script.header,
            target: &targets[at],
            place: at as u32,
            keeps,
        };
        match new_track(alloc, turn) {
            Ok(track) => {
                tracks.push_reserved(track);
                at += 1;
            }
            Err(AllocError) => {
                give_up(tracks);
                return Err(AllocError);
            }
        }
    }
    Ok(tracks)
}

/// The wires of a track.
pub(crate) fn track_wires(track: Track<MemoryWire>) -> Shelved
    ensures wires { AreWiresOf track result }
    ensures track { IsTrack talking track }
{
    let (scrape, post) = track.into_wires();
    scrape.facts();
    post.facts();
    Shelved { scrape, post }
}

/// The wires of tracks, in order.
fn wires_of(alloc: Global, tracks: Vec<Track<MemoryWire>>) -> Result<Vec<Shelved>, Memory>
    ensures { IfOk result (λ wires. AllZip AreWiresOf tracks.items wires.items) }
{
    let mut wires = match Vec::with_capacity(alloc, tracks.len()) {
        Ok(wires) => wires,
        Err(AllocError) => {
            give_up(tracks);
            return Err(AllocError);
        }
    };
    let mut left = tracks;
    for _ in 0..left.len() {
        wires.push_reserved(track_wires(left.take_last()));
    }
    left.destroy_empty();
    wires.reverse();
    Ok(wires)
}

/// What is left of a run that is over: how its targets ended, and their wires, both in order.
#[derive(Drop)]
pub struct ScriptRun {
    pub ends: Vec<TargetEnd>,
    pub wires: Vec<Shelved>,
}

/// What is left of tracks that were visited.
///
/// # Errors
///
/// Want of memory.
pub fn run_end(alloc: Global, tracks: Vec<Track<MemoryWire>>) -> Result<ScriptRun, Memory>
    ensures { IfOk result (λ run. IsLeftOf tracks.items run.ends.items run.wires.items) }
{
    match ends_of(alloc, tracks.as_slice()) {
        Ok(ends) => {
            let wires = wires_of(alloc, tracks)?;
            Ok(ScriptRun { ends, wires })
        }
        Err(AllocError) => {
            give_up(tracks);
            Err(AllocError)
        }
    }
}
