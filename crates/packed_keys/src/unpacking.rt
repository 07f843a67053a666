//! Names, labels and keys read back from their bytes.
ghost use Rattle.std.specs.Prelude.{◌≡◌, ◌^◌, ◌-◌, ◌<◌, min, length, IfOk};
ghost use Rattle.packed_keys.specs.Packing.{length_at, part_at, labels_in};
ghost use Rattle.packed_keys.specs.Texts.{IsPackedSet};

use label_sets::{Label, LabelSet, Memory, Name, Text};
use std::alloc::Global;

/// The length at the front, or the most that a number holds, and what stands behind it.
fn read_length(bytes: &[u8]) -> (usize, &[u8])
    ensures length { result.0 ≡ min (length_at bytes.now).0 (2 ^ 64 - 1) }
    ensures rest { result.1.now ≡ (length_at bytes.now).1 }
{
    let mut length = 0usize;
    let mut left = bytes;
    while let Some((first, rest)) = left.split_first() {
        length = length.saturating_add(*first as usize);
        if *first != 255 {
            return (length, rest);
        }
        left = rest;
    }
    (length, left)
}

/// The part at the front, and what stands behind it.
pub(crate) fn read_part(bytes: &[u8]) -> (&[u8], &[u8])
    ensures part { result.0.now ≡ (part_at bytes.now).0 }
    ensures rest { result.1.now ≡ (part_at bytes.now).1 }
{
    let (length, rest) = read_length(bytes);
    rest.split_at(length.min(rest.len()))
}

/// The set that bytes are.
pub(crate) fn read_set(alloc: Global, bytes: &[u8]) -> Result<LabelSet, Memory>
    requires { IsPackedSet bytes.now }
    ensures { IfOk result (λ set. set ≡ labels_in bytes.now) }
{
    let (count, mut left) = read_length(bytes);
    let mut labels = Vec::with_capacity(alloc, count)?;
    while labels.len() < count {
        let (name, behind) = read_part(left);
        let (value, rest) = read_part(behind);
        let name = Name::from_utf8(alloc, name)?;
        let value = Text::from_utf8(alloc, value)?;
        labels.push(Label { name, value })?;
        left = rest;
    }
    LabelSet::from_sorted(labels)
}
