//! What the program prints, and the status that it ends with.
ghost use Rattle.bridge_cli.specs.Printed.{IsStopPrinted};

use label_sets::List;
use otlp_tree::Request;
use program_words::{Status, Stop, stop_text};
use replay_script::Script;
use series_select::Selector;
use std::alloc::{AllocError, Global};
use std::borrow::CowSlice;

/// What is to be printed.
#[derive(Drop)]
pub(crate) enum Printed {
    /// A text.
    Whole(CowSlice<'static, u8>),
    /// The text of a tree, and a line feed. The text is made as it is printed, which takes no memory.
    Tree(Request),
    /// The bodies of a script, whose targets are visited by so many scrapers at once. Each body is made when the one
    /// before it is printed. Behind them, where it is asked for by selectors or by none, the federation page of what the
    /// targets show.
    Bodies {
        script: Script,
        scrapers: u32,
        page: Option<List<Selector>>,
    },
    /// The report of the visits of a script, which are made when it is printed.
    Report {
        script: Script,
    },
}

/// What the program prints, and the status that it ends with.
#[derive(Drop)]
pub(crate) struct Answer {
    pub(crate) status: Status,
    pub(crate) printed: Printed,
}

/// The answer where a command stops.
pub(crate) fn stop_answer(alloc: Global, stop: &Stop) -> Answer
    ensures { IsStopPrinted stop.now result.status result.printed }
{
    match stop_text(alloc, stop) {
        Ok(text) => Answer {
            status: stop.status(),
            printed: Printed::Whole(text),
        },
        Err(AllocError) => Answer {
            status: Status::WantOfMemory,
            printed: Printed::Whole(CowSlice::Borrowed(b"")),
        },
    }
}
