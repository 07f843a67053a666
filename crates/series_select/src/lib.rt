//! Selectors of series: what a text asks for, the query that carries such texts, and the page with the readings that are
//! asked for (Prometheus, "Time series selectors" and "Federation").
#![tactic(auto)]

ghost use Rattle.series_select.specs.Laws.{SelectorOnce};

mod fault;
mod matching;
mod parsing;
mod queries;
mod selecting;
mod selector;
mod telling;
mod writing;

pub use fault::{QueryFault, SelectFault};
pub use parsing::parse;
pub use queries::query;
pub use selecting::select;
pub use selector::{Matcher, Selector};
pub use telling::is_selector;
pub use writing::write_selected;

/// A text is at most one selector.
pub fn one_selector()
    ensures { SelectorOnce }
{}
