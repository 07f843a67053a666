//! One scrape over a wire: a request, its reply, and the page that it holds.
#![tactic(auto)]

mod one_scrape;
mod page_reply;
mod page_so_far;
mod talk;
mod turn;

pub use bridge_ports::Target;
pub use one_scrape::{outcome, scrape, scrape_again};
pub use page_reader::KnownFronts;
