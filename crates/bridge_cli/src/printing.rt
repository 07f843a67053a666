//! What the commands over scripts print: the targets of a script are visited by scrapers, and their wires go on the
//! shelf of a world.
ghost use Rattle.std.specs.Prelude.{◌≡◌, true, IfOk, OnOk};
ghost use Rattle.load_pages.specs.GeneratedScripts.{TakesAllBodies};
ghost use Rattle.replay_script.specs.RightScripts.{IsRightScript};
ghost use Rattle.script_commands.specs.Replays.{AreLastShown};
ghost use Rattle.script_commands.specs.Rounds.{AreVisitedWires};
ghost use Rattle.script_commands.specs.Shelves.{IsShelfOf, KeepsAllButShelf};
ghost use Rattle.script_commands.specs.Printing.{CutCause, PrintsBodies, PrintsReport, PrintsScript};

use crate::turns::run_script;
use bridge_ports::{Sink, World};
use label_sets::List;
use replay_script::Script;
use script_commands::{Cut, Over, Wanted, end_load, end_replay, print_in_turn, print_run};
use series_select::Selector;
use std::alloc::{AllocError, Global};
use std::sync::Wait;
use std::thread::Threads;

/// How many scrapers visit the targets of a load at once.
const LOAD_SCRAPERS: u32 = 4;

/// Visits the targets of a script by several scrapers at once, and then prints the bodies of the visits.
fn print_by_pool<R: Threads + Wait + Sync, O: Sink>(
    rt: &R,
    alloc: Global,
    script: &Script,
    scrapers: u32,
    wanted: Wanted,
    output: &mut O,
) -> Result<Over, Cut>
    requires { IsRightScript script.now }
    ensures printed { PrintsBodies script.now (O.held output.old) (O.held output.new) result }
    ensures cause { CutCause (O.write_faults output.old) (O.write_faults output.new) result }
    ensures wires { IfOk result (λ over. AreVisitedWires wanted.keeps script.now over.wires.items) }
    ensures shown { wanted.page ≡ true → IfOk result (λ over. AreLastShown script.now.header script.now.targets over.shown.items) }
{
    match run_script(rt, alloc, script, scrapers, wanted.keeps) {
        Ok(over) => print_run(alloc, script, over, wanted, output),
        Err(AllocError) => Err(Cut::Memory),
    }
}

/// Visits the targets of a script by so many scrapers, and prints the bodies of their visits. One scraper prints each
/// body as it posts it.
fn print_bodies<R: Threads + Wait + Sync, O: Sink>(
    rt: &R,
    alloc: Global,
    script: &Script,
    scrapers: u32,
    wanted: Wanted,
    output: &mut O,
) -> Result<Over, Cut>
    requires { IsRightScript script.now }
    ensures printed { PrintsBodies script.now (O.held output.old) (O.held output.new) result }
    ensures cause { CutCause (O.write_faults output.old) (O.write_faults output.new) result }
    ensures wires { IfOk result (λ over. AreVisitedWires wanted.keeps script.now over.wires.items) }
    ensures shown { wanted.page ≡ true → IfOk result (λ over. AreLastShown script.now.header script.now.targets over.shown.items) }
{
    if scrapers == 1 {
        return print_in_turn(alloc, script, wanted, output);
    }
    print_by_pool(rt, alloc, script, scrapers, wanted, output)
}

/// Visits the targets of a script by so many scrapers, prints the bodies of their visits, and the page where it is
/// asked for, and puts their wires on the shelf of the world.
pub(crate) fn print_script<R: Threads + Wait + Sync, W: World, O: Sink>(
    rt: &R,
    alloc: Global,
    script: &Script,
    scrapers: u32,
    page: &Option<List<Selector>>,
    world: &mut W,
    output: &mut O,
) -> Result<(), Cut>
    requires { IsRightScript script.now }
    ensures printed { PrintsScript page.now script.now (O.held output.old) (O.held output.new) result }
    ensures cause { CutCause (O.write_faults output.old) (O.write_faults output.new) result }
    ensures shelf { OnOk result (IsShelfOf script.now (W.seen world.old).world.shelf (W.seen world.new).world.shelf) }
    ensures kept { KeepsAllButShelf (W.seen world.old) (W.seen world.new) }
{
    let wanted = Wanted {
        page: page.is_some(),
        keeps: world.has_shelf(),
    };
    match print_bodies(rt, alloc, script, scrapers, wanted, output) {
        Ok(over) => end_replay(alloc, page, over, world, output),
        Err(cut) => Err(cut),
    }
}

/// Visits the targets of a load, prints the report of the visits, and puts their wires on the shelf of the world.
pub(crate) fn print_report<R: Threads + Wait + Sync, W: World, O: Sink>(
    rt: &R,
    alloc: Global,
    script: &Script,
    world: &mut W,
    output: &mut O,
) -> Result<(), Cut>
    requires right { IsRightScript script.now }
    requires taken { TakesAllBodies script.now }
    ensures printed { PrintsReport script.now (O.held output.old) (O.held output.new) result }
    ensures cause { CutCause (O.write_faults output.old) (O.write_faults output.new) result }
    ensures shelf { OnOk result (IsShelfOf script.now (W.seen world.old).world.shelf (W.seen world.new).world.shelf) }
    ensures kept { KeepsAllButShelf (W.seen world.old) (W.seen world.new) }
{
    let keeps = world.has_shelf();
    match run_script(rt, alloc, script, LOAD_SCRAPERS, keeps) {
        Ok(over) => end_load(alloc, over, world, output),
        Err(AllocError) => Err(Cut::Memory),
    }
}
