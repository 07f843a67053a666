//! A table of byte strings, each once, which no strings make slow.
ghost use Rattle.std.specs.Prelude.{◌≡◌, ◌==◌, ◌<◌, ◌++◌, [], ◌∷◌, length, IfOk, OnOk, OnErr, MatchOption, slice_get, slice_index_or, Some, false};
ghost use Rattle.std.specs.List.{list_any};
ghost use Rattle.std.specs.Option.{option_copied};
ghost use Rattle.std.specs.Str.{bytes_eq};
ghost use Rattle.byte_table.specs.Hashes.{hash_of};

use crate::chains::Chains;
use crate::hashes::hash_of;
use crate::ordered::Ordered;
use crate::strings::Strings;
use std::alloc::{AllocError, Global};
use std::marker::Model;

/// The most strings that a new one passes before the table goes over to ordered maps.
const MOST_STEPS: usize = 16;

/// Byte strings in the order in which they were added, each once. There is room for 4,294,967,295 bytes and as
/// many strings; beyond that the answer is want of memory.
#[derive(Drop)]
pub struct ByteTable {
    strings: Strings,
    chains: Chains,
    ordered: Option<Box<Ordered>>,
}

const _: () = prove!(std::mem::size_of::<ByteTable>() <= 112);

impl Model for ByteTable {
    ghost use Rattle.std.specs.Prelude as spec;
    ghost use Rattle.byte_table.specs.Finding.{Finds};
    ghost use Rattle.byte_table.specs.Links.{IsChained};

    ghost Value = { spec.List (spec.List spec.ℕ) };

    ghost view = { λ t. t.strings };

    ghost invariant = { λ t. spec.MatchOption t.ordered (IsChained t.strings t.chains.heads.items t.chains.nexts.items) (λ o. Finds o.value t.strings) };
}

impl ByteTable {
    /// A table without strings. It takes no memory.
    pub fn new(alloc: Global) -> ByteTable
        ensures { result ≡ [] }
    {
        ByteTable {
            strings: Strings::new(alloc),
            chains: Chains::new(alloc),
            ordered: None,
        }
    }

    /// How many strings there are.
    pub fn len(&self) -> usize
        ensures { result ≡ length self.now }
    {
        self.strings.len()
    }

    /// Whether there is no string.
    pub fn is_empty(&self) -> bool
        ensures { result ≡ (length self.now == 0) }
    {
        self.strings.len() == 0
    }

    /// The string of this number, counted from 0 in the order in which they were added.
    pub fn get(&self, at: usize) -> Option<&[u8]>
        ensures { option_copied result ≡ slice_get self.now at }
    {
        self.strings.get(at)
    }

    /// The string of a number that one has.
    pub fn at(&self, at: usize) -> &[u8]
        requires { at < length self.now }
        ensures { result.now ≡ slice_index_or self.now at [] }
    {
        self.strings.at(at)
    }

    /// The number of a string, where it was added.
    ///
    /// # Example
    ///
    /// ```rust
    /// let mut table = ByteTable::new(alloc);
    /// table.insert(b"one")?;
    /// table.insert(b"")?;
    /// assert_eq!(rt; table.find(b""), Some(1));
    /// assert_eq!(rt; table.find(b"two"), None);
    /// ```
    pub fn find(&self, string: &[u8]) -> Option<usize>
        ensures { MatchOption result (list_any (bytes_eq string.now) self.now ≡ false) (λ at. slice_get self.now at ≡ Some string.now) }
    {
        match &self.ordered {
            None => {
                let walk = self.chains.walk(&self.strings, hash_of(string), string);
                walk.found
            }
            Some(ordered) => ordered.find(&self.strings, string),
        }
    }

    /// Goes over to ordered maps.
    fn go_over(&mut self) -> Result<(), AllocError>
        ensures { self.new ≡ self.old }
    {
        let alloc = self.strings.allocator();
        let ordered = Ordered::of(&self.strings)?;
        self.ordered = Some(Box::new(alloc, ordered)?);
        self.chains = Chains::new(alloc);
        Ok(())
    }

    /// Adds a string that has this hash behind all others.
    fn push(&mut self, hash: u32, string: &[u8]) -> Result<(), AllocError>
        requires { hash ≡ hash_of string.now }
        ensures added { OnOk result (self.new ≡ self.old ++ string.now ∷ []) }
        ensures same { OnErr result (self.new ≡ self.old) }
    {
        match &mut self.ordered {
            None => self.chains.push(&mut self.strings, hash, string),
            Some(ordered) => ordered.push(&mut self.strings, string),
        }
    }

    /// Adds a string behind all others, and answers nothing; or answers its number, where it was added before.
    ///
    /// # Errors
    ///
    /// Want of memory: then the table has the strings that it had.
    pub fn insert(&mut self, string: &[u8]) -> Result<Option<usize>, AllocError>
        ensures found { IfOk result (λ found. MatchOption found (list_any (bytes_eq string.now) self.old ≡ false) (λ at. slice_get self.old at ≡ Some string.now)) }
        ensures added { IfOk result (λ found. MatchOption found (self.new ≡ self.old ++ string.now ∷ []) (λ at. self.new ≡ self.old)) }
        ensures same { OnErr result (self.new ≡ self.old) }
    {
        match &mut self.ordered {
            None => {
                let hash = hash_of(string);
                let walk = self.chains.walk(&self.strings, hash, string);
                if let Some(at) = walk.found {
                    return Ok(Some(at));
                }
                if walk.passed > MOST_STEPS {
                    self.go_over()?;
                }
                self.push(hash, string)?;
                Ok(None)
            }
            Some(ordered) => ordered.insert(&mut self.strings, string),
        }
    }
}
