//! Exact decimal numbers: read from a token, compared, and printed as literals. No call takes memory.
#![tactic(auto)]

mod buffer;
mod decimal;
mod digits;
mod lengths;
mod number;
mod number_laws;
mod order;
mod printing;
mod short;
mod signed;
mod token;

pub use buffer::Buffer;
pub use decimal::Decimal;
pub use lengths::printed_len;
pub use number::{Number, NumberFault, of, read};
pub use number_laws::{
    less_law, not_a_number_law, one_form_law, out_of_range_law, read_back_law, read_form_law,
    read_value_law, same_law, token_chars_law, total_order_law, whole_digits_law, whole_number_law,
    whole_order_law,
};
pub use order::{compare, less, nanos, whole};
pub use printing::{print, print_open};
pub use signed::signed_whole;
pub use token::split_sign;
