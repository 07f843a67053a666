//! What takes the bytes of a text.

ghost use Rattle.std.specs.Prelude.{◌≡◌, fold};
ghost use Rattle.std.specs.Fmt.{decimal};
ghost use Rattle.exact_decimal.specs.Literals.{number_json, number_text};

use exact_decimal::Number;

/// What takes the bytes of a text, one after another.
///
/// It takes any text: one that counts stops at its greatest number, and one that keeps the bytes tells
/// in the end that memory failed. So no writer has to know how much room is left, and none can fail.
pub trait Emitter {
    ghost use Rattle.std.specs.Prelude.{ℕ};

    /// The emitter with one byte more.
    ghost push: { Self → ℕ → Self };

    /// Puts bytes.
    fn put(&mut self, piece: &[u8])
        ensures { self.new ≡ fold push self.old piece.now };

    /// Puts the decimal digits of a whole number.
    fn put_integer(&mut self, n: u64)
        ensures { self.new ≡ fold push self.old (decimal n) };

    /// Puts the literal of a number in JSON.
    fn put_json_number(&mut self, n: &Number)
        ensures { self.new ≡ fold push self.old (number_json n.now) };

    /// Puts the literal of a number in a page of OpenMetrics.
    fn put_open_number(&mut self, n: &Number)
        ensures { self.new ≡ fold push self.old (number_text n.now) };
}
