//! The tests, and what they share.
mod one_track;
mod page_calls;
