//! Posts of one text, tried again where the verdict is open (OpenTelemetry protocol, "OTLP/HTTP Response").
#![tactic(auto)]

mod answer;
pub mod post_laws;
mod posted;
mod sending;

pub use posted::{Posted, Try};
pub use sending::{post, post_parts};
