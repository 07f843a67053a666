//! The names that were seen, each once.
ghost use Rattle.std.specs.Prelude.{◌≡◌, ◌<◌, ◌++◌, [], ◌∷◌, false, length, IfOk, OnErr, MatchOption, slice_get, Some};
ghost use Rattle.std.specs.List.{list_any};
ghost use Rattle.std.specs.Str.{bytes_eq};

use byte_table::ByteTable;
use label_sets::{Memory, Name};
use std::alloc::Global;
use std::marker::Model;

/// The names that were seen, each once, in the order in which they were seen.
#[derive(Drop)]
pub struct SeenNames {
    table: ByteTable,
}

impl Model for SeenNames {
    ghost use Rattle.std.specs.Prelude as spec;
    ghost use Rattle.std.specs.List.{All};

    ghost Value = { spec.List (spec.List spec.ℕ) };

    ghost view = { λ s. s.table };

    ghost invariant = { λ s. All spec.IsUtf8 s.table };
}

impl SeenNames {
    /// No names. It takes no memory.
    pub fn new(alloc: Global) -> SeenNames
        ensures { result ≡ [] }
    {
        SeenNames {
            table: ByteTable::new(alloc),
        }
    }

    /// How many names there are.
    pub fn len(&self) -> usize
        ensures { result ≡ length self.now }
    {
        self.table.len()
    }

    /// The place of a name, where it was added.
    pub fn find(&self, name: &Name) -> Option<usize>
        ensures { MatchOption result (list_any (bytes_eq name.now) self.now ≡ false) (λ at. slice_get self.now at ≡ Some name.now) }
    {
        self.table.find(name.as_bytes())
    }

    /// Adds a name behind all others, and answers nothing; or answers its place, where it was added before.
    ///
    /// # Errors
    ///
    /// Want of memory.
    pub fn insert(&mut self, name: &Name) -> Result<Option<usize>, Memory>
        ensures found { IfOk result (λ found. MatchOption found (list_any (bytes_eq name.now) self.old ≡ false) (λ at. slice_get self.old at ≡ Some name.now)) }
        ensures added { IfOk result (λ found. MatchOption found (self.new ≡ self.old ++ name.now ∷ []) (λ at. self.new ≡ self.old)) }
        ensures same { OnErr result (self.new ≡ self.old) }
    {
        self.table.insert(name.as_str().as_bytes())
    }

    /// The name at a place.
    ///
    /// # Errors
    ///
    /// Want of memory.
    pub fn name(&self, alloc: Global, at: usize) -> Result<Name, Memory>
        requires { at < length self.now }
        ensures { IfOk result (λ name. slice_get self.now at ≡ Some name) }
    {
        Name::from_utf8(alloc, self.table.at(at))
    }
}
