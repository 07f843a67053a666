//! Strings found in order, where too many share their hashes.
ghost use Rattle.std.specs.Prelude.{◌≡◌, ◌++◌, [], ◌∷◌, false, List, ℕ, length, slice_get, IfOk, MatchOption, OnErr, OnOk, Some};
ghost use Rattle.std.specs.List.{list_any};
ghost use Rattle.std.specs.Str.{bytes_eq};

use crate::hashes::{hash_of, second_hash};
use crate::strings::Strings;
use std::alloc::{AllocError, Global};
use std::collections::BTreeMap;

/// Where strings stand: one of those that share the second hash by that alone, so that numbers are compared, and
/// the others by their bytes.
#[derive(Drop)]
pub(crate) struct Ordered {
    pub(crate) firsts: BTreeMap<u64, u32>,
    pub(crate) others: BTreeMap<Vec<u8>, u32>,
}

impl Ordered {
    ghost use Rattle.byte_table.specs.Finding.{Finds};

    /// The order of no strings. It takes no memory.
    fn new(alloc: Global) -> Ordered
        ensures { Finds result [] }
    {
        Ordered {
            firsts: BTreeMap::new(alloc),
            others: BTreeMap::new(alloc),
        }
    }

    /// The order of these strings.
    pub(crate) fn of(strings: &Strings) -> Result<Ordered, AllocError>
        ensures { IfOk result (λ ordered. Finds ordered strings.now) }
    {
        let alloc = strings.allocator();
        let mut ordered = Ordered::new(alloc);
        for at in 0..strings.len() {
            ordered.add(alloc, strings.at(at), at as u32)?;
        }
        Ok(ordered)
    }

    /// Where a string stands among those in order.
    pub(crate) fn find(&self, strings: &Strings, string: &[u8]) -> Option<usize>
        requires { Finds self.now strings.now }
        ensures { MatchOption result (list_any (bytes_eq string.now) strings.now ≡ false) (λ at. slice_get strings.now at ≡ Some string.now) }
    {
        let hash = second_hash(string);
        let first = *self.firsts.get(&hash)? as usize;
        if string == strings.at(first) {
            return Some(first);
        }
        let other = *self.others.get(string)?;
        Some(other as usize)
    }

    /// Adds where a string stands.
    fn add(&mut self, alloc: Global, string: &[u8], at: u32) -> Result<(), AllocError>
        ensures added { OnOk result ((strings : List (List ℕ)) → at ≡ length strings → Finds self.old strings → Finds self.new (strings ++ string.now ∷ [])) }
        ensures same { OnErr result ((strings : List (List ℕ)) → Finds self.old strings → Finds self.new strings) }
    {
        let hash = second_hash(string);
        if self.firsts.contains_key(&hash) {
            let key = Vec::from_slice(alloc, string)?;
            self.others.insert(key, at)?;
        } else {
            self.firsts.insert(hash, at)?;
        }
        Ok(())
    }

    /// Puts a string behind all others, and adds where it stands.
    pub(crate) fn push(&mut self, strings: &mut Strings, string: &[u8]) -> Result<(), AllocError>
        requires { Finds self.old strings.old }
        ensures finds { Finds self.new strings.new }
        ensures added { OnOk result (strings.new ≡ strings.old ++ string.now ∷ []) }
        ensures same { OnErr result (strings.new ≡ strings.old) }
    {
        let count = strings.len();
        strings.push(hash_of(string), string)?;
        match self.add(strings.allocator(), string, count as u32) {
            Ok(()) => Ok(()),
            Err(failed) => {
                strings.truncate(count);
                Err(failed)
            }
        }
    }

    /// Puts a string behind all others, and answers nothing; or answers where it stands among them.
    pub(crate) fn insert(
        &mut self,
        strings: &mut Strings,
        string: &[u8],
    ) -> Result<Option<usize>, AllocError>
        requires { Finds self.old strings.old }
        ensures finds { Finds self.new strings.new }
        ensures found { IfOk result (λ found. MatchOption found (list_any (bytes_eq string.now) strings.old ≡ false) (λ at. slice_get strings.old at ≡ Some string.now)) }
        ensures added { IfOk result (λ found. MatchOption found (strings.new ≡ strings.old ++ string.now ∷ []) (λ at. strings.new ≡ strings.old)) }
        ensures same { OnErr result (strings.new ≡ strings.old) }
    {
        if let Some(at) = self.find(strings, string) {
            return Ok(Some(at));
        }
        self.push(strings, string)?;
        Ok(None)
    }
}
