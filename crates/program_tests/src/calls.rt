//! The tests, and what they share.
mod bare_runs;
mod doors;
mod gated_world;
mod inputs;
mod nearest_words;
mod overlap;
