//! What the reading of a line gives, in both formats (Prometheus text format 0.0.4, "Text format details";
//! OpenMetrics 1.0, "ABNF").

use page_model::{Item, Rule};

/// What a line gives.
#[derive(Drop)]
pub enum LineRead {
    Item(Item),
    /// The least rule that the line alone breaks.
    Refused(Rule),
}
