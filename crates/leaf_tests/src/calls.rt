//! The tests, and what they share.
mod byte_table_calls;
mod exact_decimal_calls;
mod label_sets_calls;
mod packed_keys_calls;
mod page_lines_calls;
mod text_emitter_calls;
