//! The words of the command line, and what is said of every command: its limits, the statuses, and why it stops.
#![tactic(auto)]

mod digits;
mod limits;
mod nearest;
mod status;
mod stop;
mod stop_texts;
mod usage;
mod words;

pub use digits::push_number;
pub use nearest::nearest_form;
pub use status::{Status, end_code};
pub use stop::Stop;
pub use stop_texts::stop_text;
pub use usage::{help, no_form, version};
pub use words::{Command, PageCommand, command_of};
