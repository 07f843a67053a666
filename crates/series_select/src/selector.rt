//! What series are asked for.

use label_sets::{List, Name, Text};

/// What series are asked for (Prometheus, "Time series selectors", without regular expressions).
#[derive(Drop)]
pub struct Selector {
    /// The name in front of the braces, where there is one.
    pub name: Option<Name>,
    /// The matchers in the order in which they are written.
    pub matchers: List<Matcher>,
}

/// What is asked of one label.
#[derive(Drop)]
pub struct Matcher {
    pub name: Name,
    /// Whether the value has to be another.
    pub differs: bool,
    pub value: Text,
}
