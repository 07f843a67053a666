//! Room of a fixed size, in which short pieces are gathered.
ghost use Rattle.std.specs.Prelude.{◌≡◌, ◌+◌, ◌≤◌, ◌↔◌, [], ◌++◌, length, IsOk, OnOk, OnErr};

use std::marker::Model;

/// A piece is longer than the room that is left.
#[derive(Clone, Copy, Drop)]
pub(crate) struct NoRoom;

/// The bytes at the front of `N`. Those behind them are whatever they were, so that emptying it costs nothing.
#[derive(Drop)]
pub(crate) struct Room<const N: usize> {
    bytes: [u8; N],
    len: usize,
}

impl<const N: usize> Model for Room<N> {
    ghost use Rattle.std.specs.Prelude.{◌≤◌, List, ℕ, take, length};

    ghost Value = { List ℕ };

    ghost view = { λ r. take r.len r.bytes };

    ghost invariant = { λ r. r.len ≤ N };
}

impl<const N: usize> Room<N> {
    /// Room that is empty.
    pub(crate) fn new() -> Self
        ensures { result ≡ [] }
    {
        Room {
            bytes: [0; N],
            len: 0,
        }
    }

    pub(crate) fn as_slice(&self) -> &[u8]
        ensures { result.now ≡ self.now }
    {
        &self.bytes[..self.len]
    }

    pub(crate) fn clear(&mut self)
        ensures { self.new ≡ [] }
    {
        self.len = 0;
    }

    /// Puts a piece behind the bytes, or nothing where it doesn't fit.
    #[inline]
    pub(crate) fn try_extend_from_slice(&mut self, piece: &[u8]) -> Result<(), NoRoom>
        ensures fits { IsOk result ↔ (length self.old + length piece.now ≤ N) }
        ensures ok { OnOk result (self.new ≡ self.old ++ piece.now) }
        ensures err { OnErr result (self.new ≡ self.old) }
    {
        if N - self.len < piece.len() {
            return Err(NoRoom);
        }
        let end = self.len + piece.len();
        let all = &mut self.bytes[..];
        all[self.len..end].copy_from_slice(piece);
        self.len = end;
        Ok(())
    }
}
