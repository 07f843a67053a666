//! One step over a piece of a reply.
use http_talk::Progress;

/// What a reply comes to once a front of a piece was fed.
#[derive(Clone, Copy)]
pub(crate) enum Turn {
    /// So many bytes were taken, and the rest is to be fed.
    On { taken: u32 },
    /// The piece is used up, or the reply is whole.
    Over(Progress),
}
