//! Workers over one table of targets, behind a lock: up to four scrapes are made at once, and the page of what readers
//! see is served beside them.
#![tactic(auto)]

mod doors;
mod pool;
pub mod pool_laws;
mod run;
mod serving;
mod turn;
mod workers;

pub use page_server::{ReplyStatus, ServeFault};
pub use pool::Pool;
pub use run::{Ended, RunFault, run_targets, run_with_door};
pub use target_table::{Counts, Lane, RunName, Seat, Share, Shares, Table, TableFault, Track};
pub use turn::Turn;
