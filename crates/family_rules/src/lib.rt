//! The rules that look at the lines of a page above: a checker takes the items of a page one by one,
//! refuses the first that breaks a rule, and builds the page.
#![tactic(auto)]

mod checker;
mod exemplars;
mod family;
mod group_keys;
mod keyed_sample;
mod keyed_values;
mod least_rule;
mod left;
mod page_checker;
mod pages;
mod rare_text;
mod runs;
mod sample_values;
mod timed_values;
mod unit;

pub use page_checker::Checker;
pub use page_model::{
    Bucket, Cause, Event, Exemplar, Family, Format, Item, Outcome, Page, PageCounts, PageFault,
    Quantile, Reading, Rule, Sample, Shown, Treatment, Value,
};
