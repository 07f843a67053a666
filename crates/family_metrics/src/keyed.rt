//! Values that are found by the bytes of their keys.
ghost use Rattle.std.specs.Prelude.{◌≡◌, ◌++◌, ◌∷◌, [], OnOk, OnErr, false};
ghost use Rattle.std.specs.List.{list_any};
ghost use Rattle.std.specs.Str.{bytes_eq};
ghost use Rattle.family_metrics.specs.MarkerGroups.{identity_bytes};

use byte_table::ByteTable;
use label_sets::{Kind, Memory};
use packed_keys::kind_byte;

/// Packs name, kind and unit of a metric in a room, in place of what it had.
///
/// # Errors
///
/// Want of memory.
#[tactic(auto, unfolding(crate::specs::MarkerGroups::identity_bytes))]
pub fn pack(room: &mut Vec<u8>, name: &[u8], kind: Kind, unit: &[u8]) -> Result<(), Memory>
    ensures { OnOk result (room.new.items ≡ identity_bytes name.now kind unit.now) }
{
    room.clear();
    for byte in name {
        room.push(1)?;
        room.push(*byte)?;
    }
    room.push(0)?;
    room.push(kind_byte(kind))?;
    room.extend_from_slice(unit)?;
    Ok(())
}

/// Puts a value behind the others, of which none has its key.
///
/// # Errors
///
/// Want of memory. Then neither keys nor values are changed.
pub fn push_keyed<T: Drop>(
    keys: &mut ByteTable,
    values: &mut Vec<T>,
    key: &[u8],
    value: T,
) -> Result<(), Memory>
    requires { list_any (bytes_eq key.now) keys.old ≡ false }
    ensures keys { OnOk result (keys.new ≡ keys.old ++ key.now ∷ []) }
    ensures values { OnOk result (values.new.items ≡ values.old.items ++ value ∷ []) }
    ensures err { OnErr result ((keys.new ≡ keys.old) × (values.new.items ≡ values.old.items)) }
{
    // So that nothing can fail behind the key.
    values.reserve(1)?;
    keys.insert(key)?;
    values.push(value).unwrap();
    Ok(())
}
