//! What a series is known by.
ghost use Rattle.std.specs.Prelude.{◌≡◌, IfOk};

use crate::kind::Kind;
use crate::label_set::LabelSet;
use crate::text::{Name, Text};
use std::alloc::AllocError;

/// What a series is known by (OpenTelemetry metrics data model, "Timeseries Model"). Its order is
/// by name, then kind, then unit, then the list of labels.
#[derive(Drop, PartialEq, Eq, PartialOrd, Ord, Hash)]
pub struct SeriesKey {
    pub name: Name,
    pub kind: Kind,
    pub unit: Text,
    pub labels: LabelSet,
}

impl SeriesKey {
    /// An equal key, whose labels and long texts have one owner more.
    ///
    /// # Errors
    ///
    /// Want of memory.
    pub fn copy(&self) -> Result<SeriesKey, AllocError>
        ensures { IfOk result (λ key. key ≡ self.now) }
    {
        Ok(SeriesKey {
            name: self.name.copy()?,
            kind: self.kind,
            unit: self.unit.copy()?,
            labels: self.labels.copy()?,
        })
    }
}
