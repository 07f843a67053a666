//! The metrics of scopes: the readings of a page that have points, and the series that are gone, by the scopes that their
//! labels name.
#![tactic(auto)]

mod page_scopes;
pub mod scope_laws;
mod scope_parts;
mod scopes;

pub use page_scopes::{push_scope, series_scopes};
