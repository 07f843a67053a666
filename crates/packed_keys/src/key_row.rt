//! Keys in a row, as they are or behind references, and which of them a key is.
ghost use Rattle.std.specs.Prelude.{◌≡◌, ◌≤◌, ◌<◌, List as Seq, Some, IfSome, length, slice_get};
ghost use Rattle.std.specs.Bool.{OnTrue};
ghost use Rattle.std.specs.Option.{option_copied};
ghost use Rattle.label_sets.specs.declared.series_key.SeriesKey.{SeriesKey as Key};
ghost use Rattle.packed_keys.specs.Partings.{keys_behind};

use label_sets::{List, SeriesKey};

/// How many places are looked at for a key, from the one behind the key found last.
const NEAR: usize = 4;

/// Keys in a row.
pub(crate) trait KeyRow {
    ghost keys: { Self → Seq Key };

    /// How many there are.
    fn count(&self) -> usize
        ensures { result ≡ length (keys self.now) };

    /// The key at a place.
    fn key_at(&self, at: usize) -> Option<&SeriesKey>
        ensures { option_copied result ≡ slice_get (keys self.now) at };
}

impl KeyRow for List<SeriesKey> {
    ghost keys = { λ row. row };

    fn count(&self) -> usize {
        self.len()
    }

    fn key_at(&self, at: usize) -> Option<&SeriesKey> {
        self.as_slice().get(at)
    }
}

/// Keys behind references.
#[derive(Clone, Copy)]
pub(crate) struct KeyRefs<'a> {
    pub(crate) keys: &'a [&'a SeriesKey],
}

impl KeyRow for KeyRefs<'_> {
    ghost keys = { λ row. keys_behind row.keys.now };

    fn count(&self) -> usize {
        self.keys.len()
    }

    fn key_at(&self, at: usize) -> Option<&SeriesKey> {
        match self.keys.get(at) {
            Some(key) => Some(*key),
            None => None,
        }
    }
}

/// Whether the key stands at this place.
pub(crate) fn is_at<K: KeyRow>(row: &K, at: usize, key: &SeriesKey) -> bool
    ensures { OnTrue result (slice_get (K.keys row.now) at ≡ Some key.now) }
{
    match row.key_at(at) {
        Some(other) => other == key,
        None => false,
    }
}

/// The place of a key among the next ones from a place on, where it is near.
pub(crate) fn near<K: KeyRow>(row: &K, from: usize, key: &SeriesKey) -> Option<usize>
    ensures from { IfSome result (λ at. from ≤ at) }
    ensures within { IfSome result (λ at. at < length (K.keys row.now)) }
    ensures place { IfSome result (λ at. slice_get (K.keys row.now) at ≡ Some key.now) }
{
    for step in 0..NEAR {
        let at = from.saturating_add(step);
        if at >= row.count() {
            return None;
        }
        if is_at(row, at, key) {
            return Some(at);
        }
    }
    None
}
