//! How a reply of a record ends.
ghost use Rattle.std.specs.Prelude.{◌≡◌};
ghost use Rattle.replay_script.specs.ScriptContents as contents;
ghost use Rattle.replay_script.specs.ScriptRules as rules;

use bridge_ports::End;

/// How a reply ends, as a script writes it.
#[derive(Clone, Copy, Debug, PartialEq, Eq)]
pub enum Ending {
    /// `connect`: no connection is made.
    ConnectFails,
    /// `write`: the first write fails.
    WriteFails,
    /// `read`: a read fails behind the bytes.
    ReadFails,
    /// `ended`: the peer ends the talk behind the bytes.
    PeerEnds,
}

impl Ending {
    /// The end of a talk with such a reply.
    pub(crate) fn end(self) -> End
        ensures { result ≡ contents.end_of self }
    {
        match self {
            Ending::ConnectFails => End::ConnectFailed,
            Ending::WriteFails => End::WriteFailed,
            Ending::ReadFails => End::ReadFailed,
            Ending::PeerEnds => End::Ended,
        }
    }

    /// Whether such a reply may have these bytes: one that fails before a byte comes has none.
    pub(crate) fn may_have(self, got: &[u8]) -> bool
        ensures { result ≡ rules.fits_ending self got.now }
    {
        match self {
            Ending::ConnectFails => got.is_empty(),
            Ending::WriteFails => got.is_empty(),
            Ending::ReadFails => true,
            Ending::PeerEnds => true,
        }
    }
}
