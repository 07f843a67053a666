//! What a stream of a reply comes to, piece by piece.
use crate::fault::Progress;
use page_model::Format;

/// What a stream comes to next in a piece.
#[derive(Clone, Copy, Debug, PartialEq, Eq)]
pub enum Flow {
    /// The piece is used up, and the reply may go on.
    More,
    /// The head ended, and a body in this format follows.
    Page(Format),
    /// The bytes of the piece from `from` up to `to` are the next ones of the body, at least one.
    Body { from: u32, to: u32 },
    /// The reply is whole, and all of its body was given before.
    Whole,
}

/// What a step comes to, and how many bytes of its piece it takes.
#[derive(Clone, Copy)]
pub(crate) struct Step {
    pub(crate) flow: Flow,
    pub(crate) taken: u32,
}

/// What a reader that keeps the body comes to, once it fed a front of a piece.
#[derive(Clone, Copy)]
pub(crate) enum Turn {
    /// So many bytes were taken, and the rest is to be fed.
    On { taken: u32 },
    /// The piece is used up, or the reply is whole.
    Over(Progress),
}
