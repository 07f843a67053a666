//! The label sets that were seen, each once.
ghost use Rattle.std.specs.Prelude.{◌≡◌, ◌<◌, [], length, map, IfOk, OnErr, slice_get, Some};
ghost use Rattle.std.specs.List.{All};
ghost use Rattle.label_sets.specs.Labels.{without_label};
ghost use Rattle.packed_keys.specs.Packing.{labels_in, with_set};
ghost use Rattle.packed_keys.specs.Texts.{IsPackedSet};

use crate::packing::{put_labels, put_labels_without};
use crate::unpacking::read_set;
use byte_table::ByteTable;
use label_sets::{LabelSet, Memory};
use std::alloc::Global;
use std::marker::Model;

/// The label sets that were seen, each once, in the order in which they were seen.
#[derive(Drop)]
pub struct SeenSets {
    table: ByteTable,
    /// The place of the last answer: what comes together is often of one set.
    last: usize,
    /// The room in which a set is packed.
    packed: Vec<u8>,
}

impl Model for SeenSets {
    ghost use Rattle.std.specs.Prelude as spec;
    ghost use Rattle.std.specs.List.{All};
    ghost use Rattle.label_sets.specs.declared.label_set.LabelSet.{LabelSet as Set};
    ghost use Rattle.packed_keys.specs.Packing.{labels_in};
    ghost use Rattle.packed_keys.specs.Texts.{IsPackedSet};

    ghost Value = { spec.List Set };

    ghost view = { λ s. spec.map labels_in s.table };

    ghost invariant = { λ s. All IsPackedSet s.table };
}

/// Adds a packed set, where it is new, and answers its place.
fn insert_packed(table: &mut ByteTable, last: &mut usize, packed: &[u8]) -> Result<usize, Memory>
    requires set { IsPackedSet packed.now }
    requires sets { All IsPackedSet table.old }
    ensures place { IfOk result (λ at. slice_get (map labels_in table.new) at ≡ Some (labels_in packed.now)) }
    ensures sets { IfOk result (λ at. map labels_in table.new ≡ with_set (map labels_in table.old) (labels_in packed.now)) }
    ensures err { OnErr result (map labels_in table.new ≡ map labels_in table.old) }
    ensures packed { All IsPackedSet table.new }
{
    if table.get(*last) == Some(packed) {
        return Ok(*last);
    }
    let count = table.len();
    let place = table.insert(packed)?.unwrap_or(count);
    *last = place;
    Ok(place)
}

impl SeenSets {
    /// No sets. It takes no memory.
    pub fn new(alloc: Global) -> SeenSets
        ensures { result ≡ [] }
    {
        SeenSets {
            table: ByteTable::new(alloc),
            last: 0,
            packed: Vec::new(alloc),
        }
    }

    /// How many sets there are.
    pub fn len(&self) -> usize
        ensures { result ≡ length self.now }
    {
        self.table.len()
    }

    /// Adds a set, where it is new, and answers its place.
    ///
    /// # Errors
    ///
    /// Want of memory: then the sets are those that there were.
    pub fn insert(&mut self, labels: &LabelSet) -> Result<usize, Memory>
        ensures place { IfOk result (λ at. slice_get self.new at ≡ Some labels.now) }
        ensures sets { IfOk result (λ at. self.new ≡ with_set self.old labels.now) }
        ensures err { OnErr result (self.new ≡ self.old) }
    {
        self.packed.clear();
        put_labels(&mut self.packed, labels)?;
        insert_packed(&mut self.table, &mut self.last, self.packed.as_slice())
    }

    /// Adds the set without the label of this name, where it is new, and answers its place. No set is made.
    ///
    /// # Errors
    ///
    /// Want of memory: then the sets are those that there were.
    pub fn insert_without(&mut self, labels: &LabelSet, name: &[u8]) -> Result<usize, Memory>
        ensures place { IfOk result (λ at. slice_get self.new at ≡ Some (without_label name.now labels.now)) }
        ensures sets { IfOk result (λ at. self.new ≡ with_set self.old (without_label name.now labels.now)) }
        ensures err { OnErr result (self.new ≡ self.old) }
    {
        self.packed.clear();
        put_labels_without(&mut self.packed, labels, name)?;
        insert_packed(&mut self.table, &mut self.last, self.packed.as_slice())
    }

    /// The set at a place.
    ///
    /// # Errors
    ///
    /// Want of memory.
    pub fn set(&self, alloc: Global, at: usize) -> Result<LabelSet, Memory>
        requires { at < length self.now }
        ensures { IfOk result (λ set. slice_get self.now at ≡ Some set) }
    {
        read_set(alloc, self.table.at(at))
    }
}
