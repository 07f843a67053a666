//! The commands: what each prints, and its status, or why it stops.
ghost use Rattle.std.specs.Prelude.{◌≡◌, None, false, IfOk, IfErr, IsOk};
ghost use Rattle.program_words.specs.declared.status.Status.TheVariants.{Done};
ghost use Rattle.bridge_cli.specs.Answers.{Answers};
ghost use Rattle.bridge_cli.specs.CommandReads.{LeavesInput, LeavesRun, IsAlone, ReadsOf};
ghost use Rattle.page_commands.specs.PageTexts.{text_in};
ghost use Rattle.bridge_cli.specs.Printed.{IsStatusSoFar, IsPageTextPrinted, IsPrintedOf, IsReportPrinted};
ghost use Rattle.program_words.specs.CommandWords.{command_row, scrapers_asked, takes_memory};
ghost use Rattle.program_words.specs.StopAnswers.{StopsAs};
ghost use Rattle.run_command.specs.RunAnswers.{run_status};
ghost use Rattle.world_run.specs.Unused.{AreUnused};

use crate::answer::{Answer, Printed};
use bridge_ports::{Conn, Door, Source, World};
use load_pages::generated;
use page_commands::PageText;
use program_words::{Command, Status, Stop, help, version};
use run_command::{Report, run};
use script_commands::whole_script;
use std::alloc::{AllocError, Global};
use std::borrow::CowSlice;
use std::sync::Wait;
use std::thread::Threads;

/// How many scrapers `replay` has: 1 where the words do not say it.
fn scrapers_of(said: Option<u32>) -> u32
    ensures { result ≡ scrapers_asked said }
{
    said.unwrap_or(1)
}

/// What a command that is done prints.
fn done(printed: Printed) -> Answer
    ensures status { result.status ≡ Done }
    ensures printed { result.printed ≡ printed }
{
    Answer {
        status: Status::Done,
        printed,
    }
}

/// What is printed of a page.
fn page_printed(text: PageText) -> Printed
    ensures { IsPageTextPrinted (text_in text) result }
{
    match text {
        PageText::Whole(text) => Printed::Whole(CowSlice::Owned(text)),
        PageText::Tree(tree) => Printed::Tree(tree),
    }
}

/// What is printed of a run that is over. Where a target was halted, memory was wanted.
fn report_answer(report: Report) -> Answer
    ensures status { result.status ≡ run_status report.halted }
    ensures printed { IsReportPrinted report.text.items result.printed }
{
    let status = if report.halted {
        Status::WantOfMemory
    } else {
        Status::Done
    };
    Answer {
        status,
        printed: Printed::Whole(CowSlice::Owned(report.text)),
    }
}

/// Does what a command asks for up to printing, and gives what it prints. Of a world only a run uses anything here.
pub(crate) fn run_up_to_printing<
    R: Threads + Wait + Sync,
    K: Conn,
    E: Door<Conn = K>,
    W: World<Door = E>,
    I: Source,
>(rt: &R, alloc: Global, command: Command, world: &mut W, input: &mut I) -> Result<Answer, Stop>
    requires limits { (command_row command).limits }
    requires asked { (W.seen world.old).world.asked ≡ None }
    requires no_door { (W.seen world.old).world.door_at ≡ None }
    requires unused { AreUnused (W.seen world.old).home }
    ensures status { IfOk result (λ a. IsStatusSoFar command a.status) }
    ensures printed { IfOk result (λ a. IsPrintedOf command (I.left input.old) (W.seen world.old) (W.seen world.new) a.status a.printed) }
    ensures stop { IfErr result (StopsAs (Answers command (W.seen world.old) (W.seen world.new)) (I.left input.old)) }
    ensures reads { ReadsOf (command_row command).reads I.left I.read_faults input.old input.new W.seen world.old world.new result }
    ensures input { LeavesInput (command_row command).reads input.old input.new }
    ensures ready { takes_memory command ≡ false → IsOk result }
    ensures left { LeavesRun (command_row command).uses (W.seen world.old) (W.seen world.new) result }
    ensures world { IsAlone (command_row command).uses world.old world.new }
{
    match command {
        Command::Help => Ok(done(Printed::Whole(CowSlice::Borrowed(help())))),
        Command::Version => Ok(done(Printed::Whole(CowSlice::Borrowed(version())))),
        Command::OverPage { format, what } => {
            let text = page_commands::answer(alloc, format, what, input)?;
            Ok(done(page_printed(text)))
        }
        Command::Replay { scrapers, page } => {
            let scrapers = scrapers_of(scrapers);
            let script = whole_script(alloc, input)?;
            Ok(done(Printed::Bodies {
                script,
                scrapers,
                page,
            }))
        }
        Command::Run { path } => {
            let report = run(rt, alloc, path, world)?;
            Ok(report_answer(report))
        }
        Command::Load {
            number,
            targets,
            rounds,
        } => {
            let script = match generated(alloc, number, targets, rounds) {
                Ok(script) => script,
                Err(AllocError) => return Err(Stop::Memory),
            };
            Ok(done(Printed::Report { script }))
        }
    }
}
