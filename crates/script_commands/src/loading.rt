//! What `load` prints: the report of the visits of a script.
ghost use Rattle.std.specs.Prelude.{◌≡◌, false, OnOk, IfOk};
ghost use Rattle.std.specs.List.{AllByRecursion};
ghost use Rattle.run_report.specs.Ends.{some_halted};
ghost use Rattle.run_report.specs.Reports.{report_text};
ghost use Rattle.script_commands.specs.Printing.{CutCause, PrintsFirst};
ghost use Rattle.script_commands.specs.Shelves.{IsFreePair, with_shelved, KeepsAllButShelf};

use crate::replaying::Cut;
use crate::shelving::shelve;
use crate::visiting::ScriptRun;
use bridge_ports::{Failed, Sink, World, write_all};
use label_sets::Memory;
use run_report::{TargetEnd, push_report, some_halted};
use std::alloc::{AllocError, Global};

/// The report of how targets ended.
fn report_on(alloc: Global, ends: &[TargetEnd]) -> Result<Vec<u8>, Memory>
    ensures { IfOk result (λ text. text.items ≡ report_text ends.now) }
{
    let mut text = Vec::new(alloc);
    push_report(&mut text, ends)?;
    Ok(text)
}

/// Prints the report of how targets ended. Where some were halted, memory was wanted.
fn print_ends<O: Sink>(alloc: Global, ends: &[TargetEnd], output: &mut O) -> Result<(), Cut>
    ensures printed { PrintsFirst (report_text ends.now) (O.held output.old) (O.held output.new) result }
    ensures all { OnOk result (some_halted ends.now ≡ false) }
    ensures cause { CutCause (O.write_faults output.old) (O.write_faults output.new) result }
{
    let text = match report_on(alloc, ends) {
        Ok(text) => text,
        Err(AllocError) => return Err(Cut::Memory),
    };
    match write_all(output, text.as_slice()) {
        Ok(()) => {}
        Err(Failed) => return Err(Cut::Write),
    }
    if some_halted(ends) {
        return Err(Cut::Memory);
    }
    Ok(())
}

/// Prints the report of a run that is over, and puts its wires on the shelf of a world.
///
/// # Errors
///
/// A write that failed; want of memory, be it for a visit of the run, for the report or for the shelf. Then nothing or
/// the whole report is printed.
pub fn end_load<W: World, O: Sink>(
    alloc: Global,
    run: ScriptRun,
    world: &mut W,
    output: &mut O,
) -> Result<(), Cut>
    requires { AllByRecursion IsFreePair run.wires.items }
    ensures printed { PrintsFirst (report_text run.ends.items) (O.held output.old) (O.held output.new) result }
    ensures all { OnOk result (some_halted run.ends.items ≡ false) }
    ensures cause { CutCause (O.write_faults output.old) (O.write_faults output.new) result }
    ensures shelf { OnOk result (W.seen world.new ≡ with_shelved run.wires.items (W.seen world.old)) }
    ensures kept { KeepsAllButShelf (W.seen world.old) (W.seen world.new) }
{
    match print_ends(alloc, run.ends.as_slice(), output) {
        Ok(()) => {}
        Err(cut) => return Err(cut),
    }
    match shelve(alloc, run.wires, world) {
        Ok(()) => Ok(()),
        Err(AllocError) => Err(Cut::Memory),
    }
}
