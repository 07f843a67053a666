//! All bytes that were appended, which only proofs read.

ghost use Rattle.std.specs.Prelude.{◌≡◌, ◌++◌, [], ℕ, List};
ghost use Rattle.std.specs.Borrow.{ftrue};

use std::marker::Model;

/// All bytes that were appended, also those that are kept nowhere. It takes no memory, and its methods
/// do nothing at run time.
#[derive(Drop)]
pub struct AllBytes {
    ghost bytes: { List ℕ },
}

impl Model for AllBytes {
    ghost also_owns = { λ _. ftrue };
}

// It owns nothing.
unsafe impl Send for AllBytes {}

/// What is appended at once.
#[derive(Clone, Copy, Drop)]
pub struct Piece<'a> {
    /// The bytes that come behind those before.
    pub bytes: &'a [u8],
}

impl AllBytes {
    /// No bytes.
    pub fn new() -> AllBytes
        ensures { result.bytes ≡ [] }
    {
        AllBytes {}
    }

    /// These bytes, and a piece behind them.
    #[inline(always)]
    pub fn and(&self, _piece: &Piece<'_>) -> AllBytes
        ensures { result.bytes ≡ self.now.bytes ++ _piece.now.bytes.now }
    {
        AllBytes {}
    }
}
