//! The types of a page that is read: families, their readings, and what a reading says.
ghost use Rattle.std.specs.Prelude.{◌≡◌, IfOk};

use crate::item::Exemplar;
use exact_decimal::{Decimal, Number};
use label_sets::{Kind, List, Memory, Name, SeriesKey, Text};
use std::alloc::Global;
use std::marker::Model;

/// A cumulative bucket of a histogram.
#[derive(Clone, Copy, Debug, PartialEq, Eq)]
pub struct Bucket {
    /// The upper bound: a finite number or plus infinity.
    pub le: Number,
    /// How many observations are at most the bound.
    pub count: u64,
}

/// A quantile of a summary.
#[derive(Clone, Copy, Debug, PartialEq, Eq)]
pub struct Quantile {
    /// Its place, as 0.99.
    pub at: Decimal,
    pub value: Number,
}

/// The value of a reading.
#[derive(Drop)]
pub enum Value {
    Plain(Number),
    Buckets {
        buckets: List<Bucket>,
        sum: Option<Number>,
    },
    Quantiles {
        list: List<Quantile>,
        count: Option<u64>,
        sum: Option<Number>,
    },
}

impl Value {
    /// An equal value, whose list has one owner more.
    ///
    /// # Errors
    ///
    /// Want of memory.
    pub fn copy(&self) -> Result<Value, Memory>
        ensures { IfOk result (λ value. value ≡ self.now) }
    {
        Ok(match self {
            Value::Plain(number) => Value::Plain(*number),
            Value::Buckets { buckets, sum } => Value::Buckets {
                buckets: buckets.copy()?,
                sum: *sum,
            },
            Value::Quantiles { list, count, sum } => Value::Quantiles {
                list: list.copy()?,
                count: *count,
                sum: *sum,
            },
        })
    }
}

/// What a page says of one series.
#[derive(Drop)]
pub struct Reading {
    pub key: SeriesKey,
    pub value: Value,
    /// When the series was created, in seconds since the Unix epoch, where the page says so.
    pub created: Option<Number>,
    /// The page's own time of the reading in nanoseconds since the Unix epoch.
    pub stamp: Option<u64>,
    pub exemplars: List<Exemplar>,
}

impl Reading {
    /// An equal reading, whose labels, lists and long texts have one owner more.
    ///
    /// # Errors
    ///
    /// Want of memory.
    pub fn copy(&self) -> Result<Reading, Memory>
        ensures { IfOk result (λ reading. reading ≡ self.now) }
    {
        let key = self.key.copy()?;
        let value = self.value.copy()?;
        let exemplars = self.exemplars.copy()?;
        Ok(Reading {
            key,
            value,
            created: self.created,
            stamp: self.stamp,
            exemplars,
        })
    }
}

/// A metric family.
#[derive(Drop)]
pub struct Family {
    pub name: Name,
    pub kind: Kind,
    /// The HELP text, or nothing.
    pub help: Text,
    /// The unit, or nothing.
    pub unit: Text,
    pub readings: List<Reading>,
}

impl Family {
    /// An equal family, whose readings and long texts have one owner more.
    ///
    /// # Errors
    ///
    /// Want of memory.
    pub fn copy(&self) -> Result<Family, Memory>
        ensures { IfOk result (λ family. family ≡ self.now) }
    {
        let name = self.name.copy()?;
        let help = self.help.copy()?;
        let unit = self.unit.copy()?;
        let readings = self.readings.copy()?;
        Ok(Family {
            name,
            kind: self.kind,
            help,
            unit,
            readings,
        })
    }
}

/// A page without a fault: families in the order of their first lines. That it is right is kept by its type: some
/// text says it, or it is such a page with families, readings, stamps or exemplars taken out.
#[derive(Drop)]
pub struct Page {
    families: List<Family>,
    samples: u32,
}

impl Model for Page {
    ghost use Rattle.page_model.specs.PageValues.{PageValue};

    ghost Value = { PageValue };

    ghost use Rattle.page_model.specs.Pages.{IsRightPage};

    ghost view = { λ p. record { families = p.families; samples = p.samples } };

    ghost invariant = { λ p. IsRightPage (record { families = p.families; samples = p.samples }) };
}

impl Page {
    ghost use Rattle.page_model.specs.Pages.{IsRightPage};
    ghost use Rattle.page_model.specs.Presence.{empty_page};

    /// The page of these families, and of so many sample lines.
    pub fn new(families: List<Family>, samples: u32) -> Page
        requires { IsRightPage (record { families = families; samples = samples }) }
        ensures { result ≡ record { families = families; samples = samples } }
    {
        Page { families, samples }
    }

    /// The page without families. It takes no memory.
    pub fn empty(alloc: Global) -> Page
        ensures { result ≡ empty_page }
    {
        Page {
            families: List::new(alloc),
            samples: 0,
        }
    }

    /// The families in the order of their first lines.
    pub fn families(&self) -> &List<Family>
        ensures families { result.now ≡ self.now.families }
        ensures right { IsRightPage self.now }
    {
        &self.families
    }

    /// The number of sample lines.
    pub fn samples(&self) -> u32
        ensures { result ≡ self.now.samples }
    {
        self.samples
    }

    /// The same page: its families have one owner more.
    ///
    /// # Errors
    ///
    /// Want of memory.
    pub fn copy(&self) -> Result<Page, Memory>
        ensures { IfOk result (λ page. page ≡ self.now) }
    {
        let families = self.families.copy()?;
        Ok(Page {
            families,
            samples: self.samples,
        })
    }
}
