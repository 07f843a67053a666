//! Where the keys of series stand in a list.
ghost use Rattle.std.specs.Prelude.{◌≡◌, false, IfOk, IfSome, slice_get, Some};
ghost use Rattle.std.specs.Bool.{OnTrue};
ghost use Rattle.packed_keys.specs.Places.{IsPlace, AreBytesOf, AreNotOfKind};

use crate::key_row::{is_at, near};
use crate::packing::{kind_byte, put_series};
use byte_table::ByteTable;
use label_sets::{Kind, List, Memory, SeriesKey};
use std::alloc::Global;
use std::marker::Model;

/// The places of keys in a list, each found by a few comparisons where keys are asked for in the order of the list,
/// else by one hash. As long as each key is found behind the one before, none is hashed. No keys make that slow.
#[derive(Drop)]
pub struct SeriesPlaces {
    keys: List<SeriesKey>,
    /// The place behind that of the last answer.
    next: usize,
    /// What that was before the last key that was not near it: keys that come in the order of the list but for some
    /// are found again without a hash.
    other: usize,
    /// Up to where keys were looked through, so that each is at most once.
    passed: usize,
    /// A kind of which no key is, once a key of it stood nowhere behind: such keys need no table.
    lacking: Option<Kind>,
    /// The keys as bytes, once another key stood nowhere behind.
    table: Option<ByteTable>,
    /// The room in which a key is packed.
    packed: Vec<u8>,
}

impl Model for SeriesPlaces {
    ghost use Rattle.std.specs.Prelude as spec;
    ghost use Rattle.label_sets.specs.declared.series_key.SeriesKey.{SeriesKey as Key};
    ghost use Rattle.packed_keys.specs.Places.{AreBytesOf as Are, AreNotOfKind as AreNot};

    ghost Value = { spec.List Key };

    ghost view = { λ p. p.keys };

    ghost invariant = { λ p. spec.IfSome p.table (Are p.keys) × spec.IfSome p.lacking (AreNot p.keys) };
}

/// The place of a key from a place on, to the end.
fn place_from(keys: &List<SeriesKey>, from: usize, key: &SeriesKey) -> Option<usize>
    ensures { IfSome result (λ at. slice_get keys.now at ≡ Some key.now) }
{
    for at in from..keys.len() {
        if is_at(keys, at, key) {
            return Some(at);
        }
    }
    None
}

/// The keys as bytes.
fn table_of(
    alloc: Global,
    keys: &List<SeriesKey>,
    packed: &mut Vec<u8>,
) -> Result<ByteTable, Memory>
    ensures { IfOk result (AreBytesOf keys.now) }
{
    let mut table = ByteTable::new(alloc);
    for key in keys.as_slice() {
        packed.clear();
        put_series(packed, key)?;
        table.insert(packed.as_slice())?;
    }
    Ok(table)
}

/// Whether a key is of this kind.
fn has_kind(keys: &List<SeriesKey>, kind: Kind) -> bool
    ensures { result ≡ false → AreNotOfKind keys.now kind }
{
    for key in keys.as_slice() {
        if kind_byte(kind) == kind_byte(key.kind) {
            return true;
        }
    }
    false
}

/// The place of a key, by the table of the keys' bytes.
fn place_of(
    keys: &List<SeriesKey>,
    table: &ByteTable,
    packed: &mut Vec<u8>,
    key: &SeriesKey,
) -> Result<Option<usize>, Memory>
    requires { AreBytesOf keys.now table.now }
    ensures { IfOk result (IsPlace keys.now key.now) }
{
    packed.clear();
    put_series(packed, key)?;
    Ok(table.find(packed.as_slice()))
}

impl SeriesPlaces {
    /// The places of these keys. It takes no memory.
    pub fn of(alloc: Global, keys: List<SeriesKey>) -> SeriesPlaces
        ensures { result ≡ keys }
    {
        SeriesPlaces {
            keys,
            next: 0,
            other: 0,
            passed: 0,
            lacking: None,
            table: None,
            packed: Vec::new(alloc),
        }
    }

    /// The place of a key, by its hash.
    fn look_up(&mut self, alloc: Global, key: &SeriesKey) -> Result<Option<usize>, Memory>
        ensures place { IfOk result (IsPlace self.old key.now) }
        ensures same { self.new ≡ self.old }
    {
        match &self.table {
            Some(table) => place_of(&self.keys, table, &mut self.packed, key),
            None => {
                let table = table_of(alloc, &self.keys, &mut self.packed)?;
                let found = place_of(&self.keys, &table, &mut self.packed, key);
                self.table = Some(table);
                found
            }
        }
    }

    /// The place of a key that stands behind an answer: near the one where the order of the list was left, else,
    /// where no key was hashed yet, somewhere behind the last one.
    fn behind(&self, key: &SeriesKey) -> Option<usize>
        ensures { IfSome result (λ at. slice_get self.now at ≡ Some key.now) }
    {
        if let Some(at) = near(&self.keys, self.other, key) {
            return Some(at);
        }
        if self.table.is_some() {
            return None;
        }
        place_from(&self.keys, self.next.max(self.passed), key)
    }

    /// Whether it is known that no key is of this kind.
    fn lacks(&self, kind: Kind) -> bool
        ensures { OnTrue result (AreNotOfKind self.now kind) }
    {
        match self.lacking {
            Some(lacking) => kind_byte(lacking) == kind_byte(kind),
            None => false,
        }
    }

    /// Looks once whether no key is of this kind, and tells it where it is so.
    fn look_for_kind(&mut self, kind: Kind) -> bool
        ensures lacking { OnTrue result (AreNotOfKind self.old kind) }
        ensures same { self.new ≡ self.old }
    {
        if self.table.is_some() || self.lacking.is_some() {
            return false;
        }
        if has_kind(&self.keys, kind) {
            return false;
        }
        self.lacking = Some(kind);
        true
    }

    /// The place of a key that is not near the last answer.
    fn find_far(&mut self, alloc: Global, key: &SeriesKey) -> Result<Option<usize>, Memory>
        ensures place { IfOk result (IsPlace self.old key.now) }
        ensures same { self.new ≡ self.old }
    {
        if self.lacks(key.kind) {
            return Ok(None);
        }
        if let Some(at) = self.behind(key) {
            return Ok(Some(at));
        }
        if self.look_for_kind(key.kind) {
            return Ok(None);
        }
        self.look_up(alloc, key)
    }

    /// Where a key stands among the keys, or nothing where it does not: its place, counted from 0, where no key
    /// stands twice. The places behind the last answer are looked at first.
    ///
    /// # Errors
    ///
    /// Want of memory.
    ///
    /// # Example
    ///
    /// ```rust
    /// // `keys` are those of the counters `a` to `j`, `counter` is that of `f`, and `gauge` that of a gauge `b`.
    /// let mut places = SeriesPlaces::of(alloc, keys);
    /// assert_eq!(rt; places.find(alloc, &counter)?, Some(5));
    /// assert_eq!(rt; places.find(alloc, &gauge)?, None);
    /// ```
    pub fn find(&mut self, alloc: Global, key: &SeriesKey) -> Result<Option<usize>, Memory>
        ensures place { IfOk result (IsPlace self.old key.now) }
        ensures same { self.new ≡ self.old }
    {
        if let Some(at) = near(&self.keys, self.next, key) {
            self.next = at.saturating_add(1);
            return Ok(Some(at));
        }
        let found = self.find_far(alloc, key)?;
        if let Some(at) = found {
            self.other = self.next;
            self.next = at.saturating_add(1);
            self.passed = self.passed.max(self.next);
        }
        Ok(found)
    }
}
