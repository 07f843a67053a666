//! The families that were left.
ghost use Rattle.std.specs.Prelude.{◌≡◌, [], ◌∷◌, length, None, IfOk, OnOk, MatchOption, is_some};
ghost use Rattle.std.specs.Map.{lookup};
ghost use Rattle.std.specs.Option.{option_copied};
ghost use Rattle.std.specs.Str.{bytes_eq};
ghost use Rattle.indexmap.specs.IndexMap.{insert_entry};

use crate::family::FamilySoFar;
use label_sets::{Memory, Name};
use packed_keys::SeenNames;
use std::alloc::Global;
use std::marker::Model;
use std::vec::IntoIter;

/// The families that were left, each with its name, in the order of their first lines. A name is read back at
/// the end and not kept beside.
#[derive(Drop)]
pub struct LeftFamilies {
    names: SeenNames,
    families: Vec<FamilySoFar>,
}

impl Model for LeftFamilies {
    ghost use Rattle.std.specs.Prelude as spec;
    ghost use Rattle.family_rules.specs.declared.family.FamilySoFar.{FamilySoFar as Known};
    ghost use Rattle.family_rules.specs.LeftFamilies.{named, AreNamed};

    ghost Value = { spec.List (spec.List spec.ℕ × Known) };

    ghost view = { λ l. named l.names l.families.items };

    ghost invariant = { λ l. AreNamed l.names l.families.items };
}

impl LeftFamilies {
    /// No families. They take no memory.
    pub fn new(alloc: Global) -> LeftFamilies
        ensures { result ≡ [] }
    {
        LeftFamilies {
            names: SeenNames::new(alloc),
            families: Vec::new(alloc),
        }
    }

    /// How many families there are.
    pub fn len(&self) -> usize
        ensures { result ≡ length self.now }
    {
        self.families.len()
    }

    /// Whether the family of this name is one of them.
    pub fn has(&self, name: &Name) -> bool
        ensures { result ≡ is_some (lookup (bytes_eq name.now) self.now) }
    {
        self.names.find(name).is_some()
    }

    /// What is known of the family of this name.
    pub fn get(&self, name: &Name) -> Option<&FamilySoFar>
        ensures { option_copied result ≡ lookup (bytes_eq name.now) self.now }
    {
        let at = self.names.find(name)?;
        Some(&self.families[at])
    }

    /// Puts a family behind the others, or in place of the one of its name.
    ///
    /// # Errors
    ///
    /// Want of memory.
    pub fn put(&mut self, name: &Name, family: FamilySoFar) -> Result<(), Memory>
        ensures { OnOk result (self.new ≡ insert_entry bytes_eq self.old name.now family) }
    {
        match self.names.find(name) {
            Some(at) => {
                self.families[at] = family;
                Ok(())
            }
            None => self.push(name, family),
        }
    }

    /// Puts a family behind the others, of which none has its name.
    fn push(&mut self, name: &Name, family: FamilySoFar) -> Result<(), Memory>
        requires { lookup (bytes_eq name.now) self.old ≡ None }
        ensures { OnOk result (self.new ≡ insert_entry bytes_eq self.old name.now family) }
    {
        self.families.reserve(1)?;
        self.names.insert(name)?;
        self.families.push_reserved(family);
        Ok(())
    }

    /// The families one after the other, each with its name.
    pub fn into_entries(self) -> LeftEntries
        ensures { result ≡ self }
    {
        LeftEntries {
            names: self.names,
            at: 0,
            families: self.families.into_iter(),
        }
    }
}

/// Families that were left and are still to come, each with its name.
#[derive(Drop)]
pub struct LeftEntries {
    names: SeenNames,
    at: usize,
    families: IntoIter<FamilySoFar>,
}

impl Model for LeftEntries {
    ghost use Rattle.std.specs.Prelude as spec;
    ghost use Rattle.std.specs.Vec.Iter.{into_iter_items, into_iter_len};
    ghost use Rattle.family_rules.specs.declared.family.FamilySoFar.{FamilySoFar as Known};
    ghost use Rattle.std.specs.Prelude.{◌≡◌, ◌+◌};
    ghost use Rattle.family_rules.specs.LeftFamilies.{named};

    ghost Value = { spec.List (spec.List spec.ℕ × Known) };

    ghost view = { λ e. named (spec.drop e.at e.names) (into_iter_items e.families) };

    ghost invariant = { λ e. e.at + into_iter_len e.families ≡ spec.length e.names };
}

impl LeftEntries {
    /// The next family, where there is one; its name is read back.
    ///
    /// # Errors
    ///
    /// Want of memory.
    pub fn next(&mut self, alloc: Global) -> Result<Option<(Name, FamilySoFar)>, Memory>
        ensures { IfOk result (λ next. MatchOption next ((self.old ≡ []) × (self.new ≡ [])) (λ entry. self.old ≡ entry ∷ self.new)) }
    {
        if self.at >= self.names.len() {
            return Ok(None);
        }
        let name = self.names.name(alloc, self.at)?;
        let family = self.families.next().unwrap();
        self.at += 1;
        Ok(Some((name, family)))
    }
}
