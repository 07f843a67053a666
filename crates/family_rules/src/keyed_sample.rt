//! A sample on its way through the checker.
ghost use Rattle.std.specs.Prelude.{◌≡◌, Ok, Some, IfSome};

use crate::timed_values::TimedValue;
use label_sets::Kind;
use packed_keys::SampleKey;
use page_model::{Exemplar, Rule};
use sample_groups::Part;

/// A sample of the current family. What only groups take of it is lent, so that it is not moved from call to call.
#[derive(Drop)]
pub(crate) struct KeyedSample<'a> {
    /// The kind of the family.
    pub kind: Kind,
    /// Its name, and its labels as they are kept.
    pub key: SampleKey,
    pub value: TimedValue,
    /// What it is to its group, where its kind has groups, or the rule that it breaks.
    pub told: &'a Result<Option<Part>, Rule>,
    pub exemplar: &'a Option<Exemplar>,
}

/// The part that was told of a sample.
pub(crate) fn given_part(told: &Result<Option<Part>, Rule>) -> Option<&Part>
    ensures { IfSome result (λ part. told.now ≡ Ok (Some part.now)) }
{
    match told {
        Ok(Some(part)) => Some(part),
        Ok(None) => None,
        Err(_) => None,
    }
}
