//! Reads pages of the Prometheus text format 0.0.4 in pieces of any size: its lines, over the reader that both formats share.
#![tactic(auto)]

mod blanks;
mod labels;
mod line;
mod page;
mod stamp;

pub use line::TextLines;
pub use page::TextPage;
