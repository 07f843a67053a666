//! The emitter that counts.

ghost use Rattle.std.specs.Prelude.{◌≡◌, ℕ, List, fold, length};
ghost use Rattle.std.specs.Fmt.{decimal};
ghost use Rattle.exact_decimal.specs.Literals.{number_text};
ghost use Rattle.text_emitter.specs.Emitters.{count_push};

use crate::emitter::Emitter;
use exact_decimal::Number;
use std::marker::Model;

/// Counts the bytes of a text, saturating at `u64::MAX`.
#[derive(Drop)]
pub(crate) struct Count {
    bytes: u64,
}

impl Model for Count {
    ghost use Rattle.std.specs.Prelude.{◌^◌, ◌<◌, ℕ};

    ghost Value = { ℕ };

    ghost view = { λ c. c.bytes };

    ghost invariant = { λ c. c.bytes < 2 ^ 64 };
}

impl Count {
    /// No byte.
    pub(crate) fn new() -> Count
        ensures { result ≡ 0 }
    {
        Count { bytes: 0 }
    }

    /// How many bytes were put.
    pub(crate) fn bytes(&self) -> u64
        ensures { result ≡ self.now }
    {
        self.bytes
    }

    /// Counts a text of so many bytes.
    fn add(&mut self, bytes: u64)
        ensures { (text : List ℕ) → length text ≡ bytes → self.new ≡ fold count_push self.old text }
    {
        self.bytes = self.bytes.saturating_add(bytes);
    }
}

/// How many digits a number has.
fn digit_count(n: u64) -> u64
    ensures { result ≡ length (decimal n) }
{
    match n.checked_ilog10() {
        Some(power) => u64::from(power) + 1,
        None => 1,
    }
}

/// How many bytes a number has in a page of OpenMetrics.
#[tactic(auto, unfolding(exact_decimal::specs::Literals::number_json, exact_decimal::specs::Literals::number_text))]
fn open_len(n: &Number) -> usize
    ensures { result ≡ length (number_text n.now) }
{
    match n {
        Number::Finite(_) => exact_decimal::printed_len(n),
        Number::Up => b"+Inf".len(),
        Number::Down => b"-Inf".len(),
        Number::NotANumber => b"NaN".len(),
    }
}

impl Emitter for Count {
    ghost push = { count_push };

    fn put(&mut self, piece: &[u8]) {
        self.add(piece.len() as u64);
    }

    fn put_integer(&mut self, n: u64) {
        self.add(digit_count(n));
    }

    fn put_json_number(&mut self, n: &Number) {
        self.add(exact_decimal::printed_len(n) as u64);
    }

    fn put_open_number(&mut self, n: &Number) {
        self.add(open_len(n) as u64);
    }
}
