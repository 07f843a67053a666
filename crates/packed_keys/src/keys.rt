//! Packed keys, read back one after the other.
ghost use Rattle.std.specs.Prelude.{◌≡◌, [], ◌∷◌, drop, map, IfOk, OnErr, IsUtf8, MatchOption};
ghost use Rattle.std.specs.List.{All};
ghost use Rattle.packed_keys.specs.Packing.{key_at};
ghost use Rattle.packed_keys.specs.Texts.{IsPackedKey};

use crate::sample_key::SampleKey;
use crate::unpacking::{read_part, read_set};
use byte_table::ByteTable;
use label_sets::{Memory, Name};
use std::alloc::Global;
use std::marker::Model;

/// Keys that were seen and are still to come, in the order in which they were seen.
#[derive(Drop)]
pub struct Keys {
    table: ByteTable,
    at: usize,
    /// The name of the key before: keys of one family come together.
    last: Option<Name>,
}

impl Model for Keys {
    ghost use Rattle.std.specs.Prelude as spec;
    ghost use Rattle.std.specs.List.{All as Each};
    ghost use Rattle.packed_keys.specs.declared.sample_key.SampleKey.{SampleKey as Key};
    ghost use Rattle.packed_keys.specs.Packing.{key_at as read};
    ghost use Rattle.packed_keys.specs.Texts.{IsPackedKey as IsPacked};

    ghost Value = { spec.List Key };

    ghost view = { λ k. spec.drop k.at (spec.map read k.table) };

    ghost invariant = { λ k. Each IsPacked k.table };
}

/// The name that bytes spell: the one before, where it is the same.
fn name_of(alloc: Global, last: &Option<Name>, bytes: &[u8]) -> Result<Name, Memory>
    requires { IsUtf8 bytes.now }
    ensures { IfOk result (λ name. name ≡ bytes.now) }
{
    match last {
        Some(last) if last.as_bytes() == bytes => last.copy(),
        _ => Name::from_utf8(alloc, bytes),
    }
}

impl Keys {
    /// All keys of a table.
    pub(crate) fn of(table: ByteTable) -> Keys
        requires { All IsPackedKey table }
        ensures { result ≡ map key_at table }
    {
        Keys {
            table,
            at: 0,
            last: None,
        }
    }

    /// The next key, where there is one. A name is shared with the key before where it is the same.
    ///
    /// # Errors
    ///
    /// Want of memory.
    pub fn next(&mut self, alloc: Global) -> Result<Option<SampleKey>, Memory>
        ensures steps { IfOk result (λ next. MatchOption next ((self.old ≡ []) × (self.new ≡ [])) (λ key. self.old ≡ key ∷ self.new)) }
        ensures err { OnErr result (self.new ≡ self.old) }
    {
        if self.at >= self.table.len() {
            return Ok(None);
        }
        let (name, labels) = read_part(self.table.at(self.at));
        let name = name_of(alloc, &self.last, name)?;
        let labels = read_set(alloc, labels)?;
        self.last = Some(name.copy()?);
        self.at += 1;
        Ok(Some(SampleKey { name, labels }))
    }

    /// Passes over so many keys.
    pub fn pass_over(&mut self, count: usize)
        ensures { self.new ≡ drop count self.old }
    {
        self.at = self.at.saturating_add(count).min(self.table.len());
    }
}
