//! Digits of whole numbers, made once for numbers that come back.

ghost use Rattle.std.specs.Prelude.{◌≡◌, ◌≤◌, drop};
ghost use Rattle.std.specs.Fmt.{decimal};

use std::mem;

/// A number with its digits.
#[derive(Drop)]
struct Printed {
    number: u64,
    digits: [u8; 20],
    start: usize,
    ghost inside: { start ≤ 20 },
    ghost printed: { drop start digits ≡ decimal number },
}

impl Printed {
    fn zero() -> Printed {
        Printed {
            number: 0,
            digits: *b"00000000000000000000",
            start: 19,
        }
    }

    /// Prints another number.
    fn print(&mut self, n: u64)
        ensures { self.new.number ≡ n }
    {
        self.start = itoa::write_digits(n, &mut self.digits, 20);
        self.number = n;
    }

    /// The digits of the number.
    fn digits(&self) -> &[u8]
        ensures { result.now ≡ decimal self.now.number }
    {
        &self.digits[self.start..]
    }
}

/// The two numbers that were printed last, with their digits.
///
/// The points of a request mostly have one start and one time, whose digits are then made once.
#[derive(Drop)]
pub(crate) struct LastIntegers {
    last: Printed,
    before: Printed,
}

impl LastIntegers {
    pub(crate) fn new() -> LastIntegers {
        LastIntegers {
            last: Printed::zero(),
            before: Printed::zero(),
        }
    }

    /// The digits of a number.
    pub(crate) fn digits(&mut self, n: u64) -> &[u8]
        ensures { result.now ≡ decimal n }
    {
        if n != self.last.number {
            mem::swap(&mut self.last, &mut self.before);
            if n != self.last.number {
                self.last.print(n);
            }
        }
        self.last.digits()
    }
}
