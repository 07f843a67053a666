//! The tests, and what they share.
mod lines_calls;
mod noted_wire;
mod one_target;
mod page_server_calls;
mod plans;
mod series_table_calls;
mod std_edge_calls;
mod std_world_calls;
mod told_visits;
