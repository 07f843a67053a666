//! The bodies of a script's events, which are printed one after the other as they are made, and what targets show
//! behind them.
ghost use Rattle.std.specs.Prelude.{◌≡◌, ◌≤◌, [], true, List as Seq, IfOk, OnOk, length, EachIndex, slice_index};
ghost use Rattle.bridge_ports.specs.Targets.{Scraped};
ghost use Rattle.page_model.specs.declared.event.Event.{Event as AnyEvent};
ghost use Rattle.target_core.specs.States.{StandsFor, HasNextMoment};
ghost use Rattle.replay_script.specs.RightScripts.{IsOver, IsRightHeader, IsRightTarget, IsRightScript};
ghost use Rattle.script_commands.specs.Replays.{script_tracking, AreLastShown};
ghost use Rattle.script_commands.specs.Printing.{cut_status, CutCause, MakesTree, PrintsReply, PrintsTarget, PrintsBodies, StandsForAll, ShowsLast};

use bridge_ports::{Failed, MemoryReply, Sink};
use otlp_tree::Request;
use page_model::{Event, Shown};
use program_words::Status;
use replay_script::{Header, Script, ScriptTarget};
use scrape_client::outcome;
use std::alloc::{AllocError, Global};
use target_core::TargetState;

/// Why printing in pieces was cut off.
#[derive(Clone, Copy, Debug, PartialEq, Eq)]
pub enum Cut {
    /// A write failed.
    Write,
    /// Memory was wanted for the next piece.
    Memory,
}

impl Cut {
    /// The status that the program ends with.
    pub fn status(self) -> Status
        ensures { result ≡ cut_status self }
    {
        match self {
            Cut::Write => Status::WriteFailed,
            Cut::Memory => Status::WantOfMemory,
        }
    }
}

/// Makes the tree of the event of a reply.
fn next_tree(
    alloc: Global,
    header: &Header,
    reply: &MemoryReply,
    state: &mut TargetState,
) -> Result<Request, AllocError>
    requires right { IsRightHeader header.now }
    requires ended { IsOver reply.now }
    requires next { HasNextMoment state.old.moment }
    ensures { (target : Scraped) (earlier : Seq AnyEvent) → StandsFor target (script_tracking header.now target) state.old earlier
        → MakesTree header.now target reply.now earlier state.new result }
{
    let outcome = outcome(
        alloc,
        reply.got.as_slice(),
        reply.end,
        header.limit,
        header.max_page,
    )?;
    let event = Event {
        reading: reply.at,
        outcome,
    };
    state.step(alloc, event)
}

/// Prints the body of the event of a reply, as it is made of its tree.
fn print_next<O: Sink>(
    alloc: Global,
    header: &Header,
    reply: &MemoryReply,
    state: &mut TargetState,
    output: &mut O,
) -> Result<(), Cut>
    requires right { IsRightHeader header.now }
    requires ended { IsOver reply.now }
    requires next { HasNextMoment state.old.moment }
    ensures printed { PrintsReply header.now reply.now state.old state.new (O.held output.old) (O.held output.new) result }
    ensures cause { CutCause (O.write_faults output.old) (O.write_faults output.new) result }
{
    let request = match next_tree(alloc, header, reply, state) {
        Ok(request) => request,
        Err(AllocError) => return Err(Cut::Memory),
    };
    match otlp_json::print_line(&request, output) {
        Ok(()) => Ok(()),
        Err(Failed) => Err(Cut::Write),
    }
}

/// Prints the bodies of the visits of a target that were counted, over a state that stands for no event, and gives
/// the state behind them. Where fewer than all were, memory was wanted.
fn print_replies<O: Sink>(
    alloc: Global,
    header: &Header,
    target: &ScriptTarget,
    visits: u64,
    start: TargetState,
    output: &mut O,
) -> Result<TargetState, Cut>
    requires right { IsRightHeader header.now }
    requires target { IsRightTarget header.now target.now }
    requires fresh { StandsFor target.now.target (script_tracking header.now target.now.target) start [] }
    ensures printed { PrintsTarget header.now target.now (O.held output.old) (O.held output.new) result }
    ensures cause { CutCause (O.write_faults output.old) (O.write_faults output.new) result }
    ensures visited { OnOk result (length target.now.scrapes ≤ visits) }
    ensures stands { IfOk result (StandsForAll header.now target.now) }
{
    let mut state = start;
    let replies = target.scrapes.as_slice();
    let mut at = 0usize;
    while at < replies.len() {
        if at as u64 >= visits {
            drop(state);
            return Err(Cut::Memory);
        }
        match print_next(alloc, header, &replies[at], &mut state, output) {
            Ok(()) => at += 1,
            Err(cut) => {
                drop(state);
                return Err(cut);
            }
        }
    }
    Ok(state)
}

/// Prints the bodies of the visits of a target that were counted, and gives its state behind them.
fn print_target<O: Sink>(
    alloc: Global,
    header: &Header,
    target: &ScriptTarget,
    visits: u64,
    output: &mut O,
) -> Result<TargetState, Cut>
    requires right { IsRightHeader header.now }
    requires target { IsRightTarget header.now target.now }
    ensures printed { PrintsTarget header.now target.now (O.held output.old) (O.held output.new) result }
    ensures cause { CutCause (O.write_faults output.old) (O.write_faults output.new) result }
    ensures visited { OnOk result (length target.now.scrapes ≤ visits) }
    ensures stands { IfOk result (StandsForAll header.now target.now) }
{
    match new_state(alloc, header, target) {
        Ok(state) => print_replies(alloc, header, target, visits, state, output),
        Err(AllocError) => Err(Cut::Memory),
    }
}

/// The state of a target that was not scraped.
fn new_state(
    alloc: Global,
    header: &Header,
    target: &ScriptTarget,
) -> Result<TargetState, AllocError>
    requires { IsRightHeader header.now }
    ensures { IfOk result (λ state. StandsFor target.now.target (script_tracking header.now target.now.target) state []) }
{
    let copied = target.target.copy()?;
    TargetState::new(alloc, copied, header.keep)
}

/// Puts what a target shows behind the others, where the page is asked for.
fn keep_shown(page: bool, state: TargetState, shown: &mut Vec<Shown>) -> Result<(), AllocError>
    ensures { page ≡ true → OnOk result (ShowsLast state shown.old.items shown.new.items) }
{
    if !page {
        drop(state);
        return Ok(());
    }
    let last = state.latest();
    drop(state);
    shown.push(last?)?;
    Ok(())
}

/// Prints the bodies of a script's targets in order, so many of each as visits of it were counted. Gives what each
/// target shows behind its last event, where the page is asked for.
pub(crate) fn print_targets<O: Sink>(
    alloc: Global,
    script: &Script,
    visits: &[u64],
    page: bool,
    output: &mut O,
) -> Result<Vec<Shown>, Cut>
    requires right { IsRightScript script.now }
    requires each { length visits.now ≡ length script.now.targets }
    ensures printed { PrintsBodies script.now (O.held output.old) (O.held output.new) result }
    ensures cause { CutCause (O.write_faults output.old) (O.write_faults output.new) result }
    ensures visited { OnOk result (EachIndex visits.now (λ k. script.now.header.rounds ≤ slice_index visits.now k)) }
    ensures shown { page ≡ true → IfOk result (λ shown. AreLastShown script.now.header script.now.targets shown.items) }
{
    let targets = script.targets.as_slice();
    let mut shown = Vec::new(alloc);
    let mut at = 0usize;
    while at < targets.len() {
        let state = match print_target(alloc, &script.header, &targets[at], visits[at], output) {
            Ok(state) => state,
            Err(cut) => {
                drop(shown);
                return Err(cut);
            }
        };
        match keep_shown(page, state, &mut shown) {
            Ok(()) => at += 1,
            Err(AllocError) => {
                drop(shown);
                return Err(Cut::Memory);
            }
        }
    }
    Ok(shown)
}
