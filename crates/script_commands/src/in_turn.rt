//! One scraper: each target is visited for all rounds before the next one, and each body is printed from where it was
//! written for its post.
ghost use Rattle.std.specs.Prelude.{◌≡◌, ◌<◌, ◌∷◌, ◌++◌, [], true, codes, IfOk, OnOk};
ghost use Rattle.replay_script.specs.RightScripts.{IsRightHeader, IsRightTarget, IsRightScript};
ghost use Rattle.bridge_ports.specs.Targets.{most_targets};
ghost use Rattle.series_table.specs.Records.{most_visits};
ghost use Rattle.script_commands.specs.Replays.{AreLastShown};
ghost use Rattle.script_commands.specs.Rounds.{script_followed, IsUnvisited, IsAtRound, ComesToNextRound, IsVisitedAt, AreVisitedWires};
ghost use Rattle.script_commands.specs.Printing.{CutCause, PrintsText, PrintsRound, PrintsTarget, PrintsBodies, ShowsOneMore};

use crate::replaying::Cut;
use crate::visiting::{Turn, new_track, track_wires};
use bridge_ports::{Failed, MemoryWire, Shelved, Sink, write_all};
use page_model::Shown;
use replay_script::Script;
use series_table::Track;
use std::alloc::{AllocError, Global};

/// What is wanted of a replay beside the bodies that are printed.
#[derive(Clone, Copy)]
pub struct Wanted {
    /// The page behind them.
    pub page: bool,
    /// That what is posted is kept by the wires.
    pub keeps: bool,
}

/// What is left of the targets of a script once all their bodies were printed: their wires, and what they show, where
/// the page is asked for, both in order.
#[derive(Drop)]
pub struct Over {
    pub wires: Vec<Shelved>,
    pub shown: Vec<Shown>,
}

/// Prints a body, and a line feed.
fn print_body<O: Sink>(body: &[u8], output: &mut O) -> Result<(), Cut>
    ensures printed { PrintsText (body.now ++ codes "\n") (O.held output.old) (O.held output.new) result }
    ensures cause { CutCause (O.write_faults output.old) (O.write_faults output.new) result }
{
    match write_all(output, body) {
        Ok(()) => {}
        Err(Failed) => return Err(Cut::Write),
    }
    match write_all(output, b"\n") {
        Ok(()) => Ok(()),
        Err(Failed) => Err(Cut::Write),
    }
}

/// Visits a target once, and prints the body.
fn print_visit<O: Sink>(
    alloc: Global,
    track: &mut Track<MemoryWire>,
    output: &mut O,
) -> Result<(), Cut>
    requires { track.old.counts.visits < most_visits }
    ensures goes_on { ComesToNextRound track.old track.new result }
    ensures printed { PrintsRound track.old track.new (O.held output.old) (O.held output.new) result }
    ensures cause { CutCause (O.write_faults output.old) (O.write_faults output.new) result }
{
    match track.next_body(alloc) {
        Some(body) => {
            track.scrape_wire().facts();
            print_body(body.as_slice(), output)
        }
        None => Err(Cut::Memory),
    }
}

/// Visits a target for all rounds, and prints the bodies.
fn print_rounds<O: Sink>(
    alloc: Global,
    turn: Turn<'_>,
    track: &mut Track<MemoryWire>,
    output: &mut O,
) -> Result<(), Cut>
    requires right { IsRightHeader turn.header.now }
    requires target { IsRightTarget turn.header.now turn.target.now }
    requires unvisited { IsUnvisited turn.place (script_followed turn.keeps turn.header.now turn.target.now) track.old }
    ensures printed { PrintsTarget turn.entry.header.now turn.entry.target.now (O.held output.old) (O.held output.new) result }
    ensures cause { CutCause (O.write_faults output.old) (O.write_faults output.new) result }
    ensures visited { OnOk result (IsAtRound turn.entry.keeps turn.entry.header.now turn.entry.target.now turn.entry.place turn.entry.header.now.rounds track.new) }
{
    for _ in 0..turn.header.rounds {
        match print_visit(alloc, track, output) {
            Ok(()) => {}
            Err(cut) => return Err(cut),
        }
    }
    Ok(())
}

/// Puts what a track shows behind what others show, where the page is asked for.
fn keep_page(
    page: bool,
    track: &Track<MemoryWire>,
    shown: &mut Vec<Shown>,
) -> Result<(), AllocError>
    ensures { page ≡ true → OnOk result (shown.new.items ≡ shown.old.items ++ track.now.shown ∷ []) }
{
    if !page {
        return Ok(());
    }
    let last = track.shown().copy()?;
    shown.push(last)?;
    Ok(())
}

/// Visits a target for all rounds, and prints the bodies. Gives its wires, and puts what it shows then behind what
/// others show, where the page is asked for.
fn print_target<O: Sink>(
    alloc: Global,
    turn: Turn<'_>,
    page: bool,
    shown: &mut Vec<Shown>,
    output: &mut O,
) -> Result<Shelved, Cut>
    requires right { IsRightHeader turn.header.now }
    requires target { IsRightTarget turn.header.now turn.target.now }
    requires few { turn.place < most_targets }
    ensures printed { PrintsTarget turn.entry.header.now turn.entry.target.now (O.held output.old) (O.held output.new) result }
    ensures cause { CutCause (O.write_faults output.old) (O.write_faults output.new) result }
    ensures wires { IfOk result (IsVisitedAt turn.entry.keeps turn.entry.header.now turn.entry.target.now turn.entry.place) }
    ensures shown { page ≡ true → OnOk result (ShowsOneMore turn.entry.header.now turn.entry.target.now shown.old.items shown.new.items) }
{
    let mut track = match new_track(alloc, turn) {
        Ok(track) => track,
        Err(AllocError) => return Err(Cut::Memory),
    };
    let printed = print_rounds(alloc, turn, &mut track, output);
    let kept = keep_page(page, &track, shown);
    let wires = track_wires(track);
    match printed {
        Ok(()) => {}
        Err(cut) => {
            drop(wires);
            return Err(cut);
        }
    }
    match kept {
        Ok(()) => Ok(wires),
        Err(AllocError) => {
            drop(wires);
            Err(Cut::Memory)
        }
    }
}

/// Visits the targets of a script one after the other, and prints their bodies.
///
/// # Errors
///
/// A write that failed, and want of memory: then the bodies that were made before are printed, the last maybe in part.
pub fn print_in_turn<O: Sink>(
    alloc: Global,
    script: &Script,
    wanted: Wanted,
    output: &mut O,
) -> Result<Over, Cut>
    requires { IsRightScript script.now }
    ensures printed { PrintsBodies script.now (O.held output.old) (O.held output.new) result }
    ensures cause { CutCause (O.write_faults output.old) (O.write_faults output.new) result }
    ensures wires { IfOk result (λ over. AreVisitedWires wanted.keeps script.now over.wires.items) }
    ensures shown { wanted.page ≡ true → IfOk result (λ over. AreLastShown script.now.header script.now.targets over.shown.items) }
{
    let targets = script.targets.as_slice();
    let mut wires = match Vec::with_capacity(alloc, targets.len()) {
        Ok(wires) => wires,
        Err(AllocError) => return Err(Cut::Memory),
    };
    let mut shown = Vec::new(alloc);
    let mut at = 0usize;
    while at < targets.len() {
        let turn = Turn {
            header: &script.header,
            target: &targets[at],
            place: at as u32,
            keeps: wanted.keeps,
        };
        match print_target(alloc, turn, wanted.page, &mut shown, output) {
            Ok(pair) => {
                wires.push_reserved(pair);
                at += 1;
            }
            Err(cut) => return Err(cut),
        }
    }
    Ok(Over { wires, shown })
}
