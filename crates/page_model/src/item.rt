//! The types of what one line of a page says.
ghost use Rattle.std.specs.Prelude.{◌≡◌, IfOk};

use exact_decimal::Number;
use label_sets::{Kind, LabelSet, Memory, Name, Text};

/// A sample's exemplar (OpenMetrics 1.0, "Exemplars").
#[derive(Drop)]
pub struct Exemplar {
    pub labels: LabelSet,
    pub value: Number,
    /// In seconds.
    pub stamp: Option<Number>,
}

impl Exemplar {
    /// An equal exemplar, whose labels have one owner more.
    ///
    /// # Errors
    ///
    /// Want of memory.
    pub fn copy(&self) -> Result<Exemplar, Memory>
        ensures { IfOk result (λ exemplar. exemplar ≡ self.now) }
    {
        let labels = self.labels.copy()?;
        Ok(Exemplar {
            labels,
            value: self.value,
            stamp: self.stamp,
        })
    }
}

/// A sample line.
#[derive(Drop)]
pub struct Sample {
    pub name: Name,
    /// As written, not renamed yet.
    pub labels: LabelSet,
    pub value: Number,
    /// In milliseconds in text 0.0.4, in seconds in OpenMetrics.
    pub stamp: Option<Number>,
    pub exemplar: Option<Exemplar>,
}

/// What a line says.
#[derive(Drop)]
pub enum Item {
    Blank,
    Comment,
    Help { name: Name, text: Text },
    KindOf { name: Name, kind: Kind },
    Unit { name: Name, unit: Text },
    Sample(Sample),
    Eof,
}
