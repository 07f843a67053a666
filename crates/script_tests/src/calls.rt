//! The tests, and what they share.
mod bridge_config_calls;
mod std_edge_calls;
