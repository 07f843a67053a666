//! One writer of a text for its length and for its bytes.
//!
//! What has a text implements [`Emit`]: it puts the pieces of the text, one after another, into an
//! [`Emitter`]. So each piece stands in the code once: [`length`] counts them, [`write`] appends them to
//! a vector, and [`print_line`] writes them to an output.
#![tactic(auto)]

mod append;
mod byte_emitter;
mod count;
mod emit;
mod emitter;
mod last_integers;
mod print;
mod room;

pub use emit::{Emit, length, print_line, write};
pub use emitter::Emitter;
