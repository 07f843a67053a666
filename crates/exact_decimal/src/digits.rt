//! Digits without the zeros at both ends.

ghost use Rattle.std.specs.Prelude.{◌≡◌, ◌≢◌, ℕ, List, ◌+◌, ◌-◌, ◌*◌, ◌^◌, ◌%◌, ◌<◌, ◌≤◌, ◌++◌, ◌∷◌, [], true, length, IfSome};
ghost use Rattle.std.specs.Char.{is_ascii_digit};
ghost use Rattle.exact_decimal.specs.Tokens.{most_bytes};
ghost use Rattle.exact_decimal.specs.Scans.{AreDigits, Keeps};

/// The most significant digits that a number may have.
const MOST_PLACES: u32 = 38;

/// Digits without the zeros at both ends, of which there are at most 38, so that they fit 128 bits.
#[derive(Clone, Copy)]
pub(crate) struct Kept {
    pub(crate) digits: u128,
    /// How many zeros were left out at the end.
    pub(crate) zeros: u32,
    /// How many digits are kept.
    pub(crate) places: u32,
    ghost few: { places ≤ 38 },
    ghost high: { digits < 10 ^ places },
    ghost nothing: { places ≡ 0 → zeros ≡ 0 },
    ghost low: { 0 < places → 10 ^ (places - 1) ≤ digits },
    ghost last: { 0 < places → digits % 10 ≢ 0 },
}

impl Kept {
    ghost use Rattle.exact_decimal.specs.KeptDigits.{AreKeptUnlessMany};

    /// One digit more; nothing where more than 38 would be kept.
    fn push(self, digit: u8) -> Option<Kept>
        requires digit { is_ascii_digit digit ≡ true }
        requires room { self.zeros < most_bytes }
        ensures keeps { (ds : List ℕ) → Keeps ds self.digits self.zeros self.places →
            AreKeptUnlessMany (ds ++ digit ∷ []) result }
        ensures room { IfSome result (λ k. k.zeros ≤ self.zeros + 1) }
    {
        if digit == b'0' {
            if self.places == 0 {
                return Some(self);
            }
            return Some(Kept {
                digits: self.digits,
                zeros: self.zeros + 1,
                places: self.places,
            });
        }
        let places = self.places + self.zeros + 1;
        if places > MOST_PLACES {
            return None;
        }
        let digits = self.digits * 10u128.pow(self.zeros + 1) + u128::from(digit - b'0');
        Some(Kept {
            digits,
            zeros: 0,
            places,
        })
    }

    /// More digits; nothing where more than 38 would be kept.
    fn push_all(self, digits: &[u8]) -> Option<Kept>
        requires digits { AreDigits digits.now }
        requires room { self.zeros + length digits.now ≤ most_bytes }
        ensures keeps { (ds : List ℕ) → AreDigits ds → Keeps ds self.digits self.zeros self.places →
            AreKeptUnlessMany (ds ++ digits.now) result }
        ensures room { IfSome result (λ k. k.zeros ≤ self.zeros + length digits.now) }
    {
        let mut kept = self;
        for digit in digits {
            let Some(next) = kept.push(*digit) else {
                return None;
            };
            kept = next;
        }
        Some(kept)
    }

    /// The digits on both sides of a point; nothing where more than 38 would be kept.
    pub(crate) fn of(whole: &[u8], fraction: &[u8]) -> Option<Kept>
        requires digits { AreDigits (whole.now ++ fraction.now) }
        requires room { length whole.now + length fraction.now ≤ most_bytes }
        ensures keeps { AreKeptUnlessMany (whole.now ++ fraction.now) result }
        ensures room { IfSome result (λ k. k.zeros ≤ most_bytes) }
    {
        let none = Kept {
            digits: 0,
            zeros: 0,
            places: 0,
        };
        let Some(kept) = none.push_all(whole) else {
            return None;
        };
        kept.push_all(fraction)
    }
}
