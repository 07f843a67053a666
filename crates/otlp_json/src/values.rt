//! Whole numbers in quotes, and numbers.

ghost use Rattle.std.specs.Prelude.{◌≡◌, fold};
ghost use Rattle.exact_decimal.specs.Literals.{decimal_text, number_json};
ghost use Rattle.otlp_json.specs.Json.{json_integer};

use crate::json::Json;
use exact_decimal::{Decimal, Number};
use text_emitter::Emitter;

impl Json for u64 {
    ghost text = { json_integer };

    /// Emits a 64-bit integer in quotes.
    #[tactic(auto, unfolding(crate::specs::Json::json_integer))]
    fn emit<E: Emitter>(&self, out: &mut E) {
        out.put(b"\"");
        out.put_integer(*self);
        out.put(b"\"");
    }
}

impl Json for Decimal {
    ghost text = { decimal_text };

    #[tactic(auto, unfolding(exact_decimal::specs::Literals::number_json))]
    fn emit<E: Emitter>(&self, out: &mut E) {
        out.put_json_number(&Number::Finite(*self));
    }
}

impl Json for Number {
    ghost text = { number_json };

    fn emit<E: Emitter>(&self, out: &mut E) {
        out.put_json_number(self);
    }
}
