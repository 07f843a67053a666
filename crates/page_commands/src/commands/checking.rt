//! `check`: whether a page has a fault.
ghost use Rattle.std.specs.Prelude.{◌≡◌, IfOk, IfErr};
ghost use Rattle.program_words.specs.declared.status.Status.TheVariants.{Done};
ghost use Rattle.program_words.specs.Statuses.{code_of};
ghost use Rattle.page_commands.specs.PageAnswers.{page_setting, IsPageAnswer};
ghost use Rattle.page_commands.specs.CheckTexts as spec;
ghost use Rattle.page_commands.specs.CheckTexts.{checked_text};
ghost use Rattle.program_words.specs.Limits.{most_page};
ghost use Rattle.program_words.specs.StopInputs.{Leaves};
ghost use Rattle.program_words.specs.InputAnswers.{HasAnswer};
ghost use Rattle.program_words.specs.StopAnswers.{StopsAs};

use crate::pages::page_counts;
use bridge_ports::Source;
use page_model::{Format, PageCounts};
use program_words::{Stop, push_number};
use std::alloc::{AllocError, Global};

/// The line of a page with these numbers and without a fault.
#[tactic(auto, unfolding(crate::specs::CheckTexts::counted_text))]
fn counted_text(alloc: Global, counts: PageCounts) -> Result<Vec<u8>, AllocError>
    ensures { IfOk result (λ text. text.items ≡ spec.counted_text counts) }
{
    let mut text = Vec::new(alloc);
    text.extend_from_slice(b"ok ")?;
    push_number(&mut text, counts.families as u64)?;
    text.extend_from_slice(b" families ")?;
    push_number(&mut text, u64::from(counts.samples))?;
    text.extend_from_slice(b" samples\n")?;
    Ok(text)
}

/// The families and samples of the page on the input.
///
/// # Errors
///
/// The page has a fault or is too long, a read failed, or memory was wanted: [`Stop`] tells which.
pub(crate) fn check<I: Source>(
    alloc: Global,
    format: Format,
    input: &mut I,
) -> Result<Vec<u8>, Stop>
    ensures text { IfOk result (λ text. HasAnswer (IsPageAnswer (page_setting format) checked_text) (I.left input.old) (code_of Done) text.items) }
    ensures stop { IfErr result (StopsAs (IsPageAnswer (page_setting format) checked_text) (I.left input.old)) }
    ensures input { Leaves most_page (I.left input.old) (I.left input.new)
        (I.read_faults input.old) (I.read_faults input.new) result }
{
    let counts = page_counts(alloc, format, input)?;
    Ok(counted_text(alloc, counts)?)
}
