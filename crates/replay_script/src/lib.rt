//! Scripts of `replay`: which bytes are a script, what a script says of its targets' wires, and the line
//! of its first fault.
//!
//! A script is a list of parts, each with one text: the opening line, header lines, target lines and
//! records. It has 1 to 256 targets, and a record belongs to the target line above it.
#![tactic(auto)]

mod counting;
mod ending;
mod fault;
mod header;
mod parts;
mod progress;
mod reading;
mod replies;
mod script;
mod script_laws;
mod targets;
mod wires;
mod words;

pub use ending::Ending;
pub use fault::ScriptFault;
pub use header::{Header, HeaderLine};
pub use parts::TargetWords;
pub use reading::read;
pub use replies::{page_reply, raw_reply};
pub use script::{Script, ScriptTarget};
pub use script_laws::scripts_are_right;
pub use targets::target;
pub use wires::{collector, default_reply, settings};
pub use words::format_named;
