//! Reads pages of OpenMetrics 1.0 in pieces of any size: its lines, over the reader that both formats share.
#![tactic(auto)]

mod descriptors;
mod exemplar;
mod labels;
mod line;
mod numbers;
mod page;
mod sample;

pub use line::OpenLines;
pub use page::OpenPage;
