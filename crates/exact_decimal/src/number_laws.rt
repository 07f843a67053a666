//! Laws about numbers: what their definitions promise to each reader of a contract.

ghost use Rattle.std.specs.Prelude.{◌≡◌, ◌↔◌, ℕ, ◌^◌, ◌<◌, ◌==◌, nat_lt, true, false, List, Some, Ok, Err};
ghost use Rattle.std.specs.Fmt.{decimal};
ghost use Rattle.std.specs.Cmp.{IsTotalOrder};
ghost use Rattle.std.specs.List.{list_all};
ghost use Rattle.exact_decimal.specs.declared.number.Number.{Number};
ghost use Rattle.exact_decimal.specs.declared.number.Number.TheVariants.{Finite};
ghost use Rattle.exact_decimal.specs.declared.number.NumberFault.TheVariants as faults;
ghost use Rattle.exact_decimal.specs.Decimals.{DecimalValue, IsNormal, SameValue, decimal_cmp};
ghost use Rattle.exact_decimal.specs.Literals.{decimal_text};
ghost use Rattle.exact_decimal.specs.Tokens.{is_number_token, is_token_char, is_real, is_in_limits, written_decimal};
ghost use Rattle.exact_decimal.specs.Numbers.{number_read, number_of};
ghost use Rattle.exact_decimal.specs.Order.{less, same, whole};

/// A token is not a number exactly where the grammar does not have it.
pub fn not_a_number_law()
    ensures { (token : List ℕ) → (number_read token ≡ Err faults.NotANumber) ↔ (is_number_token token ≡ false) }
{}

/// A token is out of range exactly where it is a real that breaks a limit.
pub fn out_of_range_law()
    ensures { (token : List ℕ) → (number_read token ≡ Err faults.OutOfRange) ↔ ((is_real token ≡ true) × (is_in_limits token ≡ false)) }
{}

/// The decimal of a token has the value that the token writes down.
pub fn read_value_law()
    ensures { (token : List ℕ) (d : DecimalValue) → number_read token ≡ Ok (Finite d) → SameValue d (written_decimal token) }
{}

/// The decimal of a token is in the one form.
pub fn read_form_law()
    ensures { (token : List ℕ) (d : DecimalValue) → number_read token ≡ Ok (Finite d) → IsNormal d }
{}

/// Two decimals in the one form with one value are the same.
pub fn one_form_law()
    ensures { (a b : DecimalValue) → IsNormal a → IsNormal b → SameValue a b → a ≡ b }
{}

/// A whole number is a decimal in the one form, of its own value.
pub fn whole_number_law()
    ensures { (n : ℕ) → n < 2 ^ 64 → (d : DecimalValue) × (number_of n ≡ Finite d) × IsNormal d
        × SameValue d (record { negative = false; digits = n; up = 0; down = 0 }) }
{}

/// A whole number is what its decimal digits are read as.
pub fn whole_digits_law()
    ensures { (n : ℕ) → n < 2 ^ 64 → number_read (decimal n) ≡ Ok (number_of n) }
{}

/// A number token has no other characters than digits, signs, points and letters.
pub fn token_chars_law()
    ensures { (token : List ℕ) → is_number_token token ≡ true → list_all is_token_char token ≡ true }
{}

/// What is printed of a decimal is read as the decimal.
pub fn read_back_law()
    ensures { (d : DecimalValue) → IsNormal d → number_read (decimal_text d) ≡ Ok (Finite d) }
{}

/// The order of decimals is total: it turns round, goes on from one to the next, and equal ones compare alike.
pub fn total_order_law()
    ensures { IsTotalOrder decimal_cmp }
{}

/// A number below one that is below a third is below the third.
pub fn less_law()
    ensures { (a b c : Number) → less a b ≡ true → less b c ≡ true → less a c ≡ true }
{}

/// Two decimals in the one form are the same number exactly where they are one.
pub fn same_law()
    ensures { (a b : DecimalValue) → IsNormal a → IsNormal b → (same (Finite a) (Finite b) ≡ true) ↔ (a ≡ b) }
{}

/// Numbers that are whole are ordered as the whole numbers are.
pub fn whole_order_law()
    ensures same { (a b : Number) (n m : ℕ) → whole a ≡ Some n → whole b ≡ Some m → same a b ≡ (n == m) }
    ensures less { (a b : Number) (n m : ℕ) → whole a ≡ Some n → whole b ≡ Some m → less a b ≡ nat_lt n m }
{}
