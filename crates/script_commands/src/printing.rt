//! What `replay` prints of a run that is over: the bodies of its visits, and behind them the federation page of what the
//! targets show.
ghost use Rattle.std.specs.Prelude.{◌≡◌, true, is_some, IfOk, OnOk, map};
ghost use Rattle.std.specs.List.{AllByRecursion};
ghost use Rattle.series_select.specs.Selection.{selected_text};
ghost use Rattle.federation_page.specs.Gathering.{AreShowable, federated_page};
ghost use Rattle.replay_script.specs.RightScripts.{IsRightScript};
ghost use Rattle.script_commands.specs.Replays.{AreLastShown};
ghost use Rattle.script_commands.specs.Rounds.{visits_counted, IsScriptRun, AreVisitedWires};
ghost use Rattle.script_commands.specs.Shelves.{IsFreePair, with_shelved, KeepsAllButShelf};
ghost use Rattle.script_commands.specs.Printing.{CutCause, PrintsText, PrintsFirst, PrintsBodies, page_text};

use crate::in_turn::{Over, Wanted};
use crate::replaying::{Cut, print_targets};
use crate::shelving::shelve;
use crate::visiting::ScriptRun;
use bridge_ports::{Failed, Sink, World, write_all};
use federation_page::gather;
use label_sets::{List, Memory};
use page_model::Shown;
use replay_script::Script;
use run_report::TargetEnd;
use series_select::{Selector, write_selected};
use std::alloc::{AllocError, Global};

/// How many visits of each target were counted, in order.
fn visits_of(alloc: Global, ends: &[TargetEnd]) -> Result<Vec<u64>, Memory>
    ensures { IfOk result (λ visits. visits.items ≡ map visits_counted ends.now) }
{
    let mut visits = Vec::new(alloc);
    for end in ends {
        visits.push(end.counts.visits)?;
    }
    Ok(visits)
}

/// Prints the bodies of the visits of a run that is over, which are made once more for it.
///
/// # Errors
///
/// A write that failed, and want of memory, be it for a visit of the run: then the bodies that were made before are
/// printed, the last maybe in part.
pub fn print_run<O: Sink>(
    alloc: Global,
    script: &Script,
    run: ScriptRun,
    wanted: Wanted,
    output: &mut O,
) -> Result<Over, Cut>
    requires right { IsRightScript script.now }
    requires run { IsScriptRun wanted.keeps script.now run.ends.items run.wires.items }
    ensures printed { PrintsBodies script.now (O.held output.old) (O.held output.new) result }
    ensures cause { CutCause (O.write_faults output.old) (O.write_faults output.new) result }
    ensures wires { IfOk result (λ over. AreVisitedWires wanted.keeps script.now over.wires.items) }
    ensures shown { wanted.page ≡ true → IfOk result (λ over. AreLastShown script.now.header script.now.targets over.shown.items) }
{
    let visits = match visits_of(alloc, run.ends.as_slice()) {
        Ok(visits) => visits,
        Err(AllocError) => return Err(Cut::Memory),
    };
    match print_targets(alloc, script, visits.as_slice(), wanted.page, output) {
        Ok(shown) => Ok(Over {
            wires: run.wires,
            shown,
        }),
        Err(cut) => Err(cut),
    }
}

/// The text of the federation page of what is shown, with what the selectors match.
fn selected_page(
    alloc: Global,
    selectors: &List<Selector>,
    shown: &[Shown],
) -> Result<Vec<u8>, Memory>
    requires { AreShowable shown.now }
    ensures { IfOk result (λ text. text.items ≡ selected_text selectors.now (federated_page shown.now)) }
{
    let page = match gather(alloc, shown) {
        Ok(page) => page,
        Err(AllocError) => return Err(AllocError),
    };
    let mut text = Vec::new(alloc);
    match write_selected(&page, selectors, &mut text) {
        Ok(()) => Ok(text),
        Err(AllocError) => Err(AllocError),
    }
}

/// Prints the federation page of what is shown, with what the selectors match.
fn print_page<O: Sink>(
    alloc: Global,
    selectors: &List<Selector>,
    shown: &[Shown],
    output: &mut O,
) -> Result<(), Cut>
    requires { AreShowable shown.now }
    ensures printed { PrintsText (selected_text selectors.now (federated_page shown.now)) (O.held output.old) (O.held output.new) result }
    ensures cause { CutCause (O.write_faults output.old) (O.write_faults output.new) result }
{
    let text = match selected_page(alloc, selectors, shown) {
        Ok(text) => text,
        Err(AllocError) => return Err(Cut::Memory),
    };
    match write_all(output, text.as_slice()) {
        Ok(()) => Ok(()),
        Err(Failed) => Err(Cut::Write),
    }
}

/// Prints the federation page of what is shown, where it is asked for.
fn print_asked_page<O: Sink>(
    alloc: Global,
    page: &Option<List<Selector>>,
    shown: &[Shown],
    output: &mut O,
) -> Result<(), Cut>
    requires { is_some page.now ≡ true → AreShowable shown.now }
    ensures printed { PrintsText (page_text page.now shown.now) (O.held output.old) (O.held output.new) result }
    ensures cause { CutCause (O.write_faults output.old) (O.write_faults output.new) result }
{
    match page {
        Some(selectors) => print_page(alloc, selectors, shown, output),
        None => Ok(()),
    }
}

/// Prints the page of what is left of a script's targets, where it is asked for, and puts their wires on the shelf of a
/// world.
///
/// # Errors
///
/// A write that failed; want of memory for the page or for the shelf. Then nothing or the whole page is printed.
pub fn end_replay<W: World, O: Sink>(
    alloc: Global,
    page: &Option<List<Selector>>,
    over: Over,
    world: &mut W,
    output: &mut O,
) -> Result<(), Cut>
    requires shown { is_some page.now ≡ true → AreShowable over.shown.items }
    requires wires { AllByRecursion IsFreePair over.wires.items }
    ensures printed { PrintsFirst (page_text page.now over.shown.items) (O.held output.old) (O.held output.new) result }
    ensures cause { CutCause (O.write_faults output.old) (O.write_faults output.new) result }
    ensures shelf { OnOk result (W.seen world.new ≡ with_shelved over.wires.items (W.seen world.old)) }
    ensures kept { KeepsAllButShelf (W.seen world.old) (W.seen world.new) }
{
    match print_asked_page(alloc, page, over.shown.as_slice(), output) {
        Ok(()) => {}
        Err(cut) => return Err(cut),
    }
    match shelve(alloc, over.wires, world) {
        Ok(()) => Ok(()),
        Err(AllocError) => Err(Cut::Memory),
    }
}
