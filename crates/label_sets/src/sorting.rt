//! Labels in byte order of their names.
ghost use Rattle.std.specs.Prelude.{◌≡◌, [], IfOk};
ghost use Rattle.std.specs.List.Sorted.{IsStrictlySortedBy};
ghost use Rattle.label_sets.specs.Sets.{by_name};
ghost use Rattle.label_sets.specs.Labels.{repeated_at};
ghost use Rattle.label_sets.specs.Building.{BelongsAt, Sorts};

use crate::label::Label;
use crate::text::Name;
use std::alloc::{AllocError, Global};
use std::cmp::Ordering;
use std::collections::BTreeMap;

/// Up to as many labels are sorted by insertion.
const FEW_LABELS: usize = 32;

/// Puts labels into byte order of their names, unless two have one name: then the answer is the
/// place, counted from 0, of the first whose name an earlier one has.
pub(crate) fn sort_by_name(
    alloc: Global,
    labels: &mut Vec<Label>,
) -> Result<Option<usize>, AllocError>
    ensures { IfOk result (λ repeat. Sorts labels.old.items repeat labels.new.items) }
{
    if labels.len() <= FEW_LABELS {
        return Ok(sort_few(labels.as_mut_slice()));
    }
    match first_repeat(alloc, labels.as_slice())? {
        Some(at) => Ok(Some(at)),
        None => {
            labels.sort_unstable();
            Ok(None)
        }
    }
}

/// The same for few labels, by insertion, which meets the first repeat on its way.
fn sort_few(labels: &mut [Label]) -> Option<usize>
    ensures { Sorts labels.old result labels.new }
{
    for at in 0..labels.len() {
        let all = &labels[..];
        let Some(to) = place(&all[..at], &all[at].name) else {
            return Some(at);
        };
        labels[to..=at].rotate_right(1);
    }
    None
}

/// Where a name belongs among labels in byte order, or `None` where one of them has it.
fn place(sorted: &[Label], name: &Name) -> Option<usize>
    requires { IsStrictlySortedBy by_name sorted.now }
    ensures { BelongsAt sorted.now name.now result }
{
    let mut at = sorted.len();
    while at > 0 {
        match sorted[at - 1].name.cmp(name) {
            Ordering::Less => return Some(at),
            Ordering::Equal => return None,
            Ordering::Greater => at -= 1,
        }
    }
    Some(0)
}

/// The place of the first label whose name an earlier one has. It keeps the names that were seen
/// in an ordered map.
fn first_repeat(alloc: Global, labels: &[Label]) -> Result<Option<usize>, AllocError>
    ensures { IfOk result (λ repeat. repeat ≡ repeated_at [] 0 labels.now) }
{
    let mut seen = BTreeMap::new(alloc);
    for (at, label) in labels.iter().enumerate() {
        if seen.insert(label.name.as_str(), ())?.is_some() {
            return Ok(Some(at));
        }
    }
    Ok(None)
}
