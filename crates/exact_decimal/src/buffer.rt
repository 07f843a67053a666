//! A buffer of bytes into which a number is printed.
ghost use Rattle.std.specs.Prelude.{◌≡◌, ◌+◌, ◌≤◌, [], ◌++◌, length};
ghost use Rattle.exact_decimal.specs.Literals.{zeros};

use std::marker::Model;

/// Room for one literal.
#[derive(Drop)]
pub struct Buffer {
    room: [u8; 64],
    len: usize,
}

impl Model for Buffer {
    ghost use Rattle.std.specs.Prelude as spec;

    ghost Value = { spec.List spec.ℕ };

    ghost view = { λ b. spec.take b.len b.room };

    ghost use Rattle.std.specs.Prelude.{◌≤◌};

    ghost invariant = { λ b. b.len ≤ 64 };
}

// The zeros that fill a literal up to its point.
const ZEROS: &[u8; 64] = b"0000000000000000000000000000000000000000000000000000000000000000";

impl Buffer {
    /// A buffer without bytes.
    pub fn new() -> Buffer
        ensures { result ≡ [] }
    {
        Buffer {
            room: [0; 64],
            len: 0,
        }
    }

    /// The literal that was printed last.
    pub fn bytes(&self) -> &[u8]
        ensures { result.now ≡ self.now }
    {
        &self.room[..self.len]
    }

    pub(crate) fn clear(&mut self)
        ensures { self.new ≡ [] }
    {
        self.len = 0;
    }

    pub(crate) fn push(&mut self, piece: &[u8])
        requires { length self.old + length piece.now ≤ 64 }
        ensures { self.new ≡ self.old ++ piece.now }
    {
        let end = self.len + piece.len();
        self.room[self.len..end].copy_from_slice(piece);
        self.len = end;
    }

    pub(crate) fn push_zeros(&mut self, count: usize)
        requires { length self.old + count ≤ 64 }
        ensures { self.new ≡ self.old ++ zeros count }
    {
        self.push(&ZEROS[..count]);
    }
}
