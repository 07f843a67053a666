//! The words of the command line.
mod forms;
mod replay;
mod target;

use bridge_ports::Target;
pub use forms::command_of;
use label_sets::{List, Text};
use page_model::Format;
use series_select::Selector;

/// What a command asks of a page.
#[derive(Drop)]
pub enum PageCommand {
    /// Whether it has a fault.
    Check,
    /// The one event that it is.
    Convert {
        /// The job and the instance that the page is of.
        target: Target,
        /// The time of the event, in nanoseconds since the Unix epoch, at most 2^62.
        nanos: u64,
    },
}

/// What the words of the command line ask for.
#[derive(Drop)]
pub enum Command {
    /// Every form, with an example each.
    Help,
    /// The name and version of the program.
    Version,
    /// What is asked of a page.
    OverPage {
        /// The format of the page.
        format: Format,
        /// What is asked of it.
        what: PageCommand,
    },
    /// What the scrapes of a script become.
    Replay {
        /// How many scrapers visit the targets at once, from 1 to 4, where the words say it.
        scrapers: Option<u32>,
        /// The selectors of the federation page that is printed behind the bodies, where one is asked for. Without a
        /// selector it is the whole page.
        page: Option<List<Selector>>,
    },
    /// The report of the run of a configuration, over the wires of the world.
    Run {
        /// The path of the file of the configuration.
        path: Text,
    },
    /// The report of the visits of targets that a number stands for.
    Load {
        /// What stands on the pages of the targets, at most 1,000,000.
        number: u32,
        /// How many targets there are, from 1 to 64.
        targets: u32,
        /// How often each is visited, from 1 to 1,000; over all targets at most 20,000 times.
        rounds: u32,
    },
}
