//! New names for the labels that a target's own labels stand beside.
ghost use Rattle.std.specs.Prelude.{◌≡◌, length, IfOk, MatchOption, set};
ghost use Rattle.std.specs.List.{IsDistinct};
ghost use Rattle.label_sets.specs.Lists.{when_true};
ghost use Rattle.label_sets.specs.Labels.{exported_name, has_name, has_target_name, is_target_name};
ghost use Rattle.label_sets.specs.Building.{StandsAt, name_changed, same_name};

use crate::label::Label;
use crate::text::Name;
use std::alloc::{AllocError, Global};

/// Put before the names of a scraped set that the target's own labels have.
const EXPORTED: &str = "exported_";

/// Whether a target's own labels have this name.
fn is_target_name(name: &[u8]) -> bool
    ensures { result ≡ is_target_name name.now }
{
    name == b"job".as_slice() || name == b"instance".as_slice()
}

/// Whether a label has a name that a target's own labels have. Most sets have none: one pass tells.
pub(crate) fn has_target_name(labels: &[Label]) -> bool
    ensures { result ≡ has_target_name labels.now }
{
    for label in labels {
        if is_target_name(label.name.as_bytes()) {
            return true;
        }
    }
    false
}

/// Where the first label of this name stands.
fn find(labels: &[Label], name: &[u8]) -> Option<usize>
    ensures { StandsAt labels.now name.now result }
{
    for (at, label) in labels.iter().enumerate() {
        if label.name.as_bytes() == name {
            return Some(at);
        }
    }
    None
}

/// The name that a label of this name gets in a scraped set, where one has it.
pub(crate) fn exported(
    alloc: Global,
    labels: &[Label],
    name: &str,
) -> Result<Option<Name>, AllocError>
    ensures { IfOk result (λ found. found ≡ when_true (has_name labels.now name.now) (exported_name (length labels.now) labels.now name.now)) }
{
    if find(labels, name.as_bytes()).is_none() {
        return Ok(None);
    }
    Ok(Some(free_name(alloc, labels, name)?))
}

/// A name with `exported_` before it as often as is needed until no label has it.
fn free_name(alloc: Global, labels: &[Label], name: &str) -> Result<Name, AllocError>
    ensures { IfOk result (λ free. free ≡ exported_name (length labels.now) labels.now name.now) }
{
    let mut next = String::from_str(alloc, name)?;
    for _ in 0..labels.len() {
        next.insert_str(0, EXPORTED)?;
        if find(labels, next.as_bytes()).is_none() {
            return Name::from_string(next);
        }
    }
    Name::from_string(next)
}

/// Gives the label of one name another one, where there is one to give.
pub(crate) fn rename(labels: &mut Vec<Label>, from: &[u8], to: Option<Name>)
    requires { IsDistinct same_name labels.old.items }
    ensures { MatchOption to (labels.new.items ≡ labels.old.items) (λ name. labels.new.items ≡ name_changed from.now name labels.old.items) }
{
    let Some(to) = to else { return };
    let Some(at) = find(labels.as_slice(), from) else {
        return;
    };
    labels[at].name = to;
}
