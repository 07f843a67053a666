//! The pages of a target: what they say of it as a resource, what of them are series, and how the last one is kept and
//! shown.
#![tactic(auto)]

mod description;
mod last_page;
mod marks;
mod seen;
mod shown;
mod thinned;

pub use last_page::LastPage;
pub use marks::page_marks;
pub use seen::Seen;
pub use thinned::with_readings;
