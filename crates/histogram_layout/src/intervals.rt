//! What a layout holds.
ghost use Rattle.std.specs.Prelude.{◌≡◌, IfOk};

use exact_decimal::Decimal;
use label_sets::{List, Memory};

/// The observations of a histogram by the bounds between which they lie (OpenTelemetry metrics data
/// model, "Histogram").
#[derive(Drop)]
pub struct Layout {
    /// The finite upper bounds, from the least to the greatest.
    pub bounds: List<Decimal>,
    /// How many observations lie above the bound before and at most at their own; the last counts those
    /// above all bounds.
    pub counts: List<u64>,
    /// How many observations there are.
    pub count: u64,
}

impl Layout {
    /// An equal layout, whose bounds and counts have one owner more.
    ///
    /// # Errors
    ///
    /// Want of memory.
    pub fn copy(&self) -> Result<Layout, Memory>
        ensures { IfOk result (λ layout. layout ≡ self.now) }
    {
        Ok(Layout {
            bounds: self.bounds.copy()?,
            counts: self.counts.copy()?,
            count: self.count,
        })
    }
}
