//! `convert`: the tree of the event that a page becomes.
ghost use Rattle.std.specs.Prelude.{◌≡◌, ◌++◌, codes, None, IfOk, IfErr};
ghost use Rattle.page_model.specs.declared.event.Outcome.TheVariants.{Page as Scraped};
ghost use Rattle.start_times.specs.Scrapes.{moment_after};
ghost use Rattle.target_core.specs.Events.{event_request};
ghost use Rattle.otlp_json.specs.Texts.{request_text};
ghost use Rattle.program_words.specs.declared.status.Status.TheVariants.{Done};
ghost use Rattle.program_words.specs.Statuses.{code_of};
ghost use Rattle.page_commands.specs.ConvertTexts.{converted_text};
ghost use Rattle.page_commands.specs.PageAnswers.{page_setting, IsPageAnswer};
ghost use Rattle.program_words.specs.Limits.{most_page};
ghost use Rattle.program_words.specs.StopInputs.{Leaves};
ghost use Rattle.program_words.specs.InputAnswers.{HasAnswer};
ghost use Rattle.program_words.specs.StopAnswers.{StopsAs};

use crate::pages::whole_page;
use bridge_ports::{Source, Target};
use label_sets::Memory;
use otlp_tree::Request;
use page_model::{Event, Format, Outcome, Page};
use program_words::Stop;
use std::alloc::Global;
use target_core::TargetState;

/// Over how many scrapes that miss it a series would keep its start.
const KEEP: u32 = 2;

/// The tree of the event that a page is, for a target that was never scraped before.
fn first_event(alloc: Global, target: &Target, nanos: u64, page: Page) -> Result<Request, Memory>
    ensures { IfOk result (λ request. request ≡ event_request target.now (moment_after None nanos) (Scraped page)) }
{
    let target = target.copy()?;
    let mut state = TargetState::new(alloc, target, KEEP)?;
    let event = Event {
        reading: nanos,
        outcome: Outcome::Page(page),
    };
    let request = state.step(alloc, event);
    drop(state);
    request
}

/// The tree of the event that the page on the input is.
///
/// # Errors
///
/// The page has a fault or is too long, a read failed, or memory was wanted: [`Stop`] tells which.
pub(crate) fn convert<I: Source>(
    alloc: Global,
    format: Format,
    target: &Target,
    nanos: u64,
    input: &mut I,
) -> Result<Request, Stop>
    ensures text { IfOk result (λ request. HasAnswer (IsPageAnswer (page_setting format) (converted_text target.now nanos))
        (I.left input.old) (code_of Done) (request_text request ++ codes "\n")) }
    ensures stop { IfErr result (StopsAs (IsPageAnswer (page_setting format) (converted_text target.now nanos)) (I.left input.old)) }
    ensures input { Leaves most_page (I.left input.old) (I.left input.new)
        (I.read_faults input.old) (I.read_faults input.new) result }
{
    let page = whole_page(alloc, format, input)?;
    Ok(first_event(alloc, target, nanos, page)?)
}
