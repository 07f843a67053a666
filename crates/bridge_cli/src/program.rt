//! A command over any input, output and world: what it prints, and its status.
ghost use Rattle.std.specs.Prelude.{◌≡◌, ◌≢◌, ◌⊎◌, None, true, false};
ghost use Rattle.bridge_cli.specs.CommandReads.{IsAlone, IsReadInPart, LeavesInput, LeavesUsed, ReadsAllOf, TellsReads};
ghost use Rattle.bridge_cli.specs.CommandRuns.{RanCommand};
ghost use Rattle.bridge_cli.specs.Printed.{IsPrintedOf, IsPrintable, IsNothing, IsWhole, IsShelved, Ended};
ghost use Rattle.program_words.specs.declared.status.Status.TheVariants.{Done, NoForm, ReadFailed, WriteFailed, WantOfMemory, TooLong};
ghost use Rattle.program_words.specs.CommandWords.{command_row, takes_memory};
ghost use Rattle.program_words.specs.Statuses.{TellsFault, code_of, IsTold};
ghost use Rattle.script_commands.specs.Shelves.{KeepsAllButShelf};
ghost use Rattle.world_run.specs.Unused.{AreUnused};

use crate::answer::{Answer, Printed, stop_answer};
use crate::commands::run_up_to_printing;
use crate::printing::{print_report, print_script};
use bridge_ports::{Conn, Door, Sink, Source, World, write_all};
use program_words::{Command, end_code};
use std::alloc::Global;
use std::sync::Wait;
use std::thread::Threads;

/// The answer to a command: what it prints, and its status.
fn answer_of<R: Threads + Wait + Sync, K: Conn, E: Door<Conn = K>, W: World<Door = E>, I: Source>(
    rt: &R,
    alloc: Global,
    command: Command,
    world: &mut W,
    input: &mut I,
) -> Answer
    requires limits { (command_row command).limits }
    requires asked { (W.seen world.old).world.asked ≡ None }
    requires no_door { (W.seen world.old).world.door_at ≡ None }
    requires unused { AreUnused (W.seen world.old).home }
    ensures statuses { (result.status ≢ WriteFailed) × (result.status ≢ NoForm) }
    ensures printed { IsPrintedOf command (I.left input.old) (W.seen world.old) (W.seen world.new) result.status result.printed }
    ensures unread { result.status ≡ ReadFailed → IsNothing result.printed }
    ensures wanting { result.status ≡ WantOfMemory → IsNothing result.printed ⊎ ((command_row command).prints_pieces ≡ true) }
    ensures ready { takes_memory command ≡ false → result.status ≢ WantOfMemory }
    ensures input { LeavesInput (command_row command).reads input.old input.new }
    ensures read_through { IsTold (code_of result.status) ⊎ ¬ IsNothing result.printed
        → ReadsAllOf (command_row command).reads I.left input.old input.new W.seen world.old world.new }
    ensures read_in_part { result.status ≢ TooLong → IsReadInPart (command_row command).reads
        (I.left input.old) (I.left input.new) (W.seen world.old) (W.seen world.new) }
    ensures read_faults { TellsReads (code_of result.status) (command_row command).reads
        I.read_faults input.old input.new W.seen world.old world.new }
    ensures left { LeavesUsed (command_row command).uses (W.seen world.old) (W.seen world.new) (code_of result.status) }
    ensures world { IsAlone (command_row command).uses world.old world.new }
{
    match run_up_to_printing(rt, alloc, command, world, input) {
        Ok(answer) => answer,
        Err(stop) => stop_answer(alloc, &stop),
    }
}

/// Prints an answer and gives its status, the one of a failed write, or that of want of memory for a
/// piece of it or for the shelf.
fn print<R: Threads + Wait + Sync, W: World, O: Sink>(
    rt: &R,
    alloc: Global,
    world: &mut W,
    output: &mut O,
    answer: &Answer,
) -> u8
    requires right { IsPrintable answer.now.status answer.now.printed }
    requires status { answer.now.status ≢ WriteFailed }
    ensures ended { Ended answer.now.status answer.now.printed (O.held output.old) (O.held output.new) result }
    ensures empty { IsNothing answer.now.printed → output.new ≡ output.old }
    ensures faults { TellsFault (code_of WriteFailed) result (O.write_faults output.old) (O.write_faults output.new) }
    ensures shelf { result ≡ code_of Done → IsShelved answer.now.printed (W.seen world.old).world.shelf (W.seen world.new).world.shelf }
    ensures kept { KeepsAllButShelf (W.seen world.old) (W.seen world.new) }
    ensures unused { IsWhole answer.now.printed → world.new ≡ world.old }
{
    match &answer.printed {
        Printed::Whole(text) => end_code(answer.status, write_all(output, text.as_slice())),
        Printed::Tree(request) => end_code(answer.status, otlp_json::print_line(request, output)),
        Printed::Bodies {
            script,
            scrapers,
            page,
        } => match print_script(rt, alloc, script, *scrapers, page, world, output) {
            Ok(()) => answer.status.code(),
            Err(cut) => cut.status().code(),
        },
        Printed::Report { script } => match print_report(rt, alloc, script, world, output) {
            Ok(()) => answer.status.code(),
            Err(cut) => cut.status().code(),
        },
    }
}

/// Does what a command asks for over an input, an output and a world, and answers the status that the program ends with
/// ([`program_words::Status`]). Where memory was wanting nothing was written, or of `replay` the bodies that were made
/// before, without its page or with it; of `load` the report of the visits that were made; of `run` the report in which some
/// target was halted.
///
/// A source that does not tell its bytes has some bytes, and the answer is to those.
///
/// `load`, `run`, and `replay` with several scrapers, start threads and wait for them, so what is said here holds where
/// the call returns.
///
/// # Example
///
/// ```rust
/// let (format, what) = (Format::Text, PageCommand::Check);
/// let command = Command::OverPage { format, what };
/// let mut input = SureSource::new(Bytes::from_slice(alloc, b"# TYPE x counter\ny 1\nx 2\n")?);
/// let mut output = MemorySink::new(alloc, 1_000, List::new(alloc))?;
/// let status = execute(&rt, alloc, command, &mut world, &mut input, &mut output);
/// assert_eq!(rt; (status, output.held()), (1, b"refused line 3 rule 11 Split\n".as_slice()));
/// ```
pub fn execute<
    R: Threads + Wait + Sync,
    K: Conn,
    E: Door<Conn = K>,
    W: World<Door = E>,
    I: Source,
    O: Sink,
>(rt: &R, alloc: Global, command: Command, world: &mut W, input: &mut I, output: &mut O) -> u8
    requires limits { (command_row command).limits }
    requires asked { (W.seen world.old).world.asked ≡ None }
    requires no_door { (W.seen world.old).world.door_at ≡ None }
    requires unused { AreUnused (W.seen world.old).home }
    ensures { RanCommand command I.left I.read_faults input.old input.new
        O.held O.write_faults output.old output.new W.seen world.old world.new result }
{
    let answer = answer_of(rt, alloc, command, world, input);
    print(rt, alloc, world, output, &answer)
}
