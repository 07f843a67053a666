//! Whole numbers with a sign.

ghost use Rattle.std.specs.Prelude.{◌≡◌};
ghost use Rattle.exact_decimal.specs.Numbers.{number};
ghost use Rattle.exact_decimal.specs.WholeTokens.{whole_token};

use crate::number::Number;
use crate::short::short_decimal;

/// The number n, or minus n, for times before and after an epoch.
pub fn signed_whole(negative: bool, n: u64) -> Number
    ensures { result ≡ number (whole_token negative n) }
{
    Number::Finite(short_decimal(negative, n, 0, 0))
}
