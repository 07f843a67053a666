//! The table of several targets: whose turn it is, what is out with which lane, and what readers see.
#![tactic(auto)]

mod books;
mod lane;
mod lease;
mod page;
mod slots;
mod table;
pub mod table_laws;
mod turn;

pub use books::{Books, Seat};
pub use lane::{Blanks, First, Fourth, Lane, Second, Share, Shares, Third};
pub use lease::{Lease, RunName};
pub use series_table::{Counts, Track, Visited};
pub use table::{Table, TableFault};
