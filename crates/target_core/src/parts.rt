//! What a checkpoint keeps of a target.
use label_sets::{LabelSet, List};
use staleness::Mark;
use start_times::Kept;

/// What is kept of a target's scrapes so far: all that its later events depend on.
#[derive(Drop)]
pub struct Parts {
    /// The moment of the last event, in nanoseconds since the Unix epoch, where there was one.
    pub moment: Option<u64>,
    /// What the last page said of the target as a resource.
    pub resource: LabelSet,
    /// A row for each series, in the order of keys.
    pub rows: List<Kept>,
    /// The series of the last page, in its order.
    pub marks: List<Mark>,
}
