//! The emitter that makes the bytes of a text.

ghost use Rattle.std.specs.Prelude.{◌≡◌, fold};

use crate::emitter::Emitter;
use crate::last_integers::LastIntegers;
use exact_decimal::Number;
use std::marker::Model;

/// What takes the bytes of a text, piece by piece.
pub(crate) trait Pieces {
    ghost use Rattle.std.specs.Prelude.{ℕ};

    /// What it is with one byte more.
    ghost push: { Self → ℕ → Self };

    /// Takes a piece.
    fn append(&mut self, piece: &[u8])
        ensures { self.new ≡ fold push self.old piece.now };
}

/// Makes the bytes of each part of a text, and hands them on.
#[derive(Drop)]
pub(crate) struct ByteEmitter<P> {
    pieces: P,
    last: LastIntegers,
}

impl<P> Model for ByteEmitter<P> {
    ghost Value = { P };

    ghost view = { λ e. e.pieces };
}

impl<P> ByteEmitter<P> {
    /// An emitter that hands bytes on to these pieces.
    pub(crate) fn over(pieces: P) -> ByteEmitter<P>
        ensures { result ≡ pieces }
    {
        ByteEmitter {
            pieces,
            last: LastIntegers::new(),
        }
    }

    /// What took the bytes.
    pub(crate) fn into_pieces(self) -> P
        ensures { result ≡ self }
    {
        self.pieces
    }
}

impl<P: Pieces> Emitter for ByteEmitter<P> {
    ghost push = { P.push };

    // In line, so that a piece whose length is known is put by a few moves.
    #[inline(always)]
    fn put(&mut self, piece: &[u8]) {
        self.pieces.append(piece);
    }

    fn put_integer(&mut self, n: u64) {
        self.pieces.append(self.last.digits(n));
    }

    fn put_json_number(&mut self, n: &Number) {
        let mut literal = exact_decimal::Buffer::new();
        exact_decimal::print(n, &mut literal);
        self.pieces.append(literal.bytes());
    }

    fn put_open_number(&mut self, n: &Number) {
        let mut literal = exact_decimal::Buffer::new();
        exact_decimal::print_open(n, &mut literal);
        self.pieces.append(literal.bytes());
    }
}
