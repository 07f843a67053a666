//! The keys of a page.
ghost use Rattle.std.specs.Prelude.{◌≡◌, ◌++◌, ◌∷◌, [], IfOk, OnOk};
ghost use Rattle.std.specs.List.{IsDistinct};
ghost use Rattle.label_sets.specs.Keys.{key_eq};
ghost use Rattle.packed_keys.specs.Partings.{keys_behind};
ghost use Rattle.page_model.specs.Presence as presence;
ghost use Rattle.staleness.specs.Vanished as spec;

use label_sets::{Memory, SeriesKey};
use page_model::{Page, Reading};
use std::alloc::Global;

/// Whether a reading has a time of its own, where those count.
#[tactic(auto, unfolding(crate::specs::Vanished::has_own_time))]
fn has_own_time(honor: bool, reading: &Reading) -> bool
    ensures { result ≡ spec.has_own_time honor reading.now }
{
    honor && reading.stamp.is_some()
}

/// Puts a reference to the key of a reading behind others, unless it has a time of its own.
fn put_key<'a>(
    keys: &mut Vec<&'a SeriesKey>,
    honor: bool,
    reading: &'a Reading,
) -> Result<(), Memory>
    ensures { OnOk result (keys_behind keys.new.items ≡ keys_behind keys.old.items ++ spec.untimed_keys honor (reading.entry.now ∷ [])) }
{
    if has_own_time(honor, reading) {
        return Ok(());
    }
    keys.push(&reading.key)?;
    Ok(())
}

/// Puts references to the keys of readings without times of their own behind others.
fn put_keys<'a>(
    keys: &mut Vec<&'a SeriesKey>,
    honor: bool,
    readings: &'a [Reading],
) -> Result<(), Memory>
    ensures { OnOk result (keys_behind keys.new.items ≡ keys_behind keys.old.items ++ spec.untimed_keys honor readings.entry.now) }
{
    for reading in readings {
        put_key(keys, honor, reading)?;
    }
    Ok(())
}

/// The keys of a page where they are, in page order, without those of readings with times of their own, where these
/// count. No series has two readings in a page.
pub(crate) fn untimed_keys(
    alloc: Global,
    honor: bool,
    page: &Page,
) -> Result<Vec<&SeriesKey>, Memory>
    ensures keys { IfOk result (λ keys. keys_behind keys.items ≡ spec.untimed_keys honor (presence.all_readings page.now)) }
    ensures once { IsDistinct key_eq (presence.keys_of page.now) }
{
    let mut keys = Vec::new(alloc);
    for family in page.families().as_slice() {
        put_keys(&mut keys, honor, family.readings.as_slice())?;
    }
    Ok(keys)
}
