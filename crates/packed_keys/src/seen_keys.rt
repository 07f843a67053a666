//! The keys of samples that were seen, each once.
ghost use Rattle.std.specs.Prelude.{◌≡◌, ◌<◌, ◌++◌, [], ◌∷◌, length, not, IfOk, OnErr, if◌then◌else◌, slice_get, Some};
ghost use Rattle.std.specs.List.{list_any};
ghost use Rattle.packed_keys.specs.declared.sample_key.SampleKey.{SampleKey as AnyKey};
ghost use Rattle.packed_keys.specs.Packing.{sample_key_eq, labels_in};
ghost use Rattle.packed_keys.specs.Texts.{IsPackedSet};

use crate::keys::Keys;
use crate::packing::put_key;
use crate::sample_key::SampleKey;
use crate::unpacking::read_part;
use byte_table::ByteTable;
use label_sets::Memory;
use std::alloc::Global;
use std::marker::Model;

/// The keys that were seen, each once, in the order in which they were seen.
#[derive(Drop)]
pub struct SeenKeys {
    table: ByteTable,
    /// The room in which a key is packed.
    packed: Vec<u8>,
}

impl Model for SeenKeys {
    ghost use Rattle.std.specs.Prelude as spec;
    ghost use Rattle.std.specs.List.{All};
    ghost use Rattle.packed_keys.specs.declared.sample_key.SampleKey.{SampleKey as Key};
    ghost use Rattle.packed_keys.specs.Packing.{key_at};
    ghost use Rattle.packed_keys.specs.Texts.{IsPackedKey};

    ghost Value = { spec.List Key };

    ghost view = { λ s. spec.map key_at s.table };

    ghost invariant = { λ s. All IsPackedKey s.table };
}

impl SeenKeys {
    /// No keys. It takes no memory.
    pub fn new(alloc: Global) -> SeenKeys
        ensures { result ≡ [] }
    {
        SeenKeys {
            table: ByteTable::new(alloc),
            packed: Vec::new(alloc),
        }
    }

    /// How many keys there are.
    pub fn len(&self) -> usize
        ensures { result ≡ length self.now }
    {
        self.table.len()
    }

    /// Adds a key, and answers whether it is new.
    ///
    /// # Errors
    ///
    /// Want of memory.
    pub fn insert(&mut self, key: &SampleKey) -> Result<bool, Memory>
        ensures added { IfOk result (λ added. added ≡ not (list_any (sample_key_eq key.now) self.old)) }
        ensures keys { IfOk result (λ added. self.new ≡ (if added then self.old ++ key.now ∷ [] else self.old)) }
        ensures err { OnErr result (self.new ≡ self.old) }
    {
        self.packed.clear();
        put_key(&mut self.packed, key)?;
        let found = self.table.insert(self.packed.as_slice())?;
        Ok(found.is_none())
    }

    /// The labels of the key at a place, as bytes.
    pub(crate) fn packed_labels(&self, at: usize) -> &[u8]
        requires { at < length self.now }
        ensures set { IsPackedSet result.now }
        ensures labels { (key : AnyKey) → slice_get self.now at ≡ Some key → labels_in result.now ≡ key.labels }
    {
        let (_name, labels) = read_part(self.table.at(at));
        labels
    }

    /// The keys, to be read one after the other.
    pub fn into_keys(self) -> Keys
        ensures { result ≡ self }
    {
        Keys::of(self.table)
    }
}
