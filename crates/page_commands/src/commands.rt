//! The commands over a page: what each prints of it.
ghost use Rattle.std.specs.Prelude.{IfOk, IfErr};
ghost use Rattle.program_words.specs.declared.status.Status.TheVariants.{Done};
ghost use Rattle.program_words.specs.Statuses.{code_of};
ghost use Rattle.program_words.specs.Limits.{most_page};
ghost use Rattle.program_words.specs.StopInputs.{Leaves};
ghost use Rattle.program_words.specs.InputAnswers.{HasAnswer};
ghost use Rattle.program_words.specs.StopAnswers.{StopsAs};
ghost use Rattle.page_commands.specs.PageAnswers.{page_setting, IsPageAnswer};
ghost use Rattle.page_commands.specs.PageTexts.{command_text, text_in};

mod checking;
mod converting;

use bridge_ports::Source;
use checking::check;
use converting::convert;
use otlp_tree::Request;
use page_model::Format;
use program_words::{PageCommand, Stop};
use std::alloc::Global;

/// What a command prints of a page.
#[derive(Drop)]
pub enum PageText {
    /// A text.
    Whole(Vec<u8>),
    /// The text of a tree, and a line feed. It is made as it is printed, which takes no memory.
    Tree(Request),
}

/// What a command asks of the page on the input.
///
/// # Errors
///
/// The page has a fault or is too long, a read failed, or memory was wanted: [`Stop`] tells which.
///
/// # Example
///
/// ```rust
/// let mut input = SureSource::new(Bytes::from_slice(alloc, b"# TYPE t gauge\nt 36.6\n")?);
/// let PageText::Whole(text) = answer(alloc, Format::Text, PageCommand::Check, &mut input)? else {
///     return Err(Stop::Read);
/// };
/// assert_eq!(rt; text.as_slice(), b"ok 1 families 1 samples\n".as_slice());
/// ```
pub fn answer<I: Source>(
    alloc: Global,
    format: Format,
    what: PageCommand,
    input: &mut I,
) -> Result<PageText, Stop>
    ensures text { IfOk result (λ text. HasAnswer (IsPageAnswer (page_setting format) (command_text what)) (I.left input.old) (code_of Done) (text_in text)) }
    ensures stop { IfErr result (StopsAs (IsPageAnswer (page_setting format) (command_text what)) (I.left input.old)) }
    ensures input { Leaves most_page (I.left input.old) (I.left input.new)
        (I.read_faults input.old) (I.read_faults input.new) result }
{
    match what {
        PageCommand::Check => match check(alloc, format, input) {
            Ok(text) => Ok(PageText::Whole(text)),
            Err(stop) => Err(stop),
        },
        PageCommand::Convert { target, nanos } => {
            match convert(alloc, format, &target, nanos, input) {
                Ok(tree) => Ok(PageText::Tree(tree)),
                Err(stop) => Err(stop),
            }
        }
    }
}
