//! A label of a series.
ghost use Rattle.std.specs.Prelude.{◌≡◌, IfOk};

use crate::text::{Name, Text};
use std::alloc::AllocError;

/// A label's name and value; its order is by name, then by value (Prometheus data model, "Metric
/// names and labels").
#[derive(Drop, PartialEq, Eq, PartialOrd, Ord, Hash)]
pub struct Label {
    pub name: Name,
    pub value: Text,
}

impl Label {
    ghost use Rattle.label_sets.specs.Labels.{has_value};

    /// Whether the label's value has bytes: an empty value says that the label is absent.
    pub fn has_value(&self) -> bool
        ensures { result ≡ has_value self.now }
    {
        !self.value.is_empty()
    }

    /// An equal label, whose long texts have one owner more.
    ///
    /// # Errors
    ///
    /// Want of memory.
    pub fn copy(&self) -> Result<Label, AllocError>
        ensures { IfOk result (λ l. l ≡ self.now) }
    {
        let name = self.name.copy()?;
        let value = self.value.copy()?;
        Ok(Label { name, value })
    }
}
