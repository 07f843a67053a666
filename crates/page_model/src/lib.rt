//! The types of exposition pages, and what a page means: which item a line spells, which rules a line
//! breaks, and which families and readings a page without a fault has. It reads and checks nothing.
#![tactic(auto)]

mod counts;
mod event;
mod fault;
mod filled_pages;
mod format;
mod item;
mod page;
pub mod page_laws;
mod rule;
mod suffix;

pub use counts::PageCounts;
pub use event::{Cause, Event, Outcome, Shown};
pub use fault::PageFault;
pub use format::{Format, Treatment};
pub use item::{Exemplar, Item, Sample};
pub use page::{Bucket, Family, Page, Quantile, Reading, Value};
pub use rule::Rule;
pub use suffix::{Suffix, is_sample_name, sample_suffix};
