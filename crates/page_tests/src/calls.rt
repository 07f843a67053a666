//! The tests, and what they share.
mod family_rules_calls;
mod known_fronts_calls;
mod open_writing_calls;
mod page_reader_calls;
mod pages;
