//! Byte strings one behind the other.
ghost use Rattle.std.specs.Prelude.{◌≡◌, ◌++◌, [], ◌∷◌, ◌+◌, ◌<◌, ◌≤◌, ◌^◌, length, take, OnOk, OnErr, slice_get, slice_index_or};
ghost use Rattle.std.specs.Option.{option_copied};
ghost use Rattle.std.specs.Str.{bytes_eq};
ghost use Rattle.byte_table.specs.Hashes.{hash_of};

use std::alloc::{AllocError, Global};
use std::marker::Model;

/// The most bytes and the most strings that lie together.
const MOST_TOGETHER: usize = 4_294_967_295;

/// Where a byte string lies, and its hash.
#[derive(Clone, Copy)]
pub(crate) struct Entry {
    pub(crate) start: u32,
    pub(crate) end: u32,
    pub(crate) hash: u32,
}

/// Byte strings, one behind the other, each with its hash.
#[derive(Drop)]
pub(crate) struct Strings {
    bytes: Vec<u8>,
    entries: Vec<Entry>,
}

impl Model for Strings {
    ghost use Rattle.std.specs.Prelude as spec;
    ghost use Rattle.byte_table.specs.Entries.{strings_of, AreEntries};

    ghost Value = { spec.List (spec.List spec.ℕ) };

    ghost view = { λ s. strings_of s.bytes.items s.entries.items };

    ghost invariant = { λ s. AreEntries s.bytes.items s.entries.items };
}

impl Strings {
    /// No strings. It takes no memory.
    pub(crate) fn new(alloc: Global) -> Strings
        ensures { result ≡ [] }
    {
        Strings {
            bytes: Vec::new(alloc),
            entries: Vec::new(alloc),
        }
    }

    /// Where memory comes from.
    pub(crate) fn allocator(&self) -> Global {
        *self.bytes.allocator()
    }

    /// How many strings there are.
    pub(crate) fn len(&self) -> usize
        ensures count { result ≡ length self.now }
        ensures few { result < 2 ^ 32 }
    {
        self.entries.len()
    }

    /// The string of this number.
    pub(crate) fn get(&self, at: usize) -> Option<&[u8]>
        ensures { option_copied result ≡ slice_get self.now at }
    {
        let bytes = self.bytes.as_slice();
        let entry = self.entries.get(at)?;
        Some(&bytes[entry.start as usize..entry.end as usize])
    }

    /// The string of a number that one has.
    pub(crate) fn at(&self, at: usize) -> &[u8]
        requires { at < length self.now }
        ensures { result.now ≡ slice_index_or self.now at [] }
    {
        let bytes = self.bytes.as_slice();
        let entry = self.entries[at];
        &bytes[entry.start as usize..entry.end as usize]
    }

    /// The hash of the string of this number.
    pub(crate) fn hash(&self, at: usize) -> u32
        requires { at < length self.now }
        ensures { result ≡ hash_of (slice_index_or self.now at []) }
    {
        self.entries[at].hash
    }

    /// Whether the string of this number is the one that has this hash.
    pub(crate) fn is_at(&self, at: usize, hash: u32, string: &[u8]) -> bool
        requires within { at < length self.now }
        requires hash { hash ≡ hash_of string.now }
        ensures { result ≡ bytes_eq string.now (slice_index_or self.now at []) }
    {
        let bytes = self.bytes.as_slice();
        let entry = self.entries[at];
        entry.hash == hash && string == &bytes[entry.start as usize..entry.end as usize]
    }

    /// Puts a string that has this hash behind all others.
    pub(crate) fn push(&mut self, hash: u32, string: &[u8]) -> Result<(), AllocError>
        requires { hash ≡ hash_of string.now }
        ensures added { OnOk result (self.new ≡ self.old ++ string.now ∷ []) }
        ensures few { OnOk result (length self.old + 1 < 2 ^ 32) }
        ensures same { OnErr result (self.new ≡ self.old) }
    {
        let start = self.bytes.len();
        let count = self.entries.len();
        if count >= MOST_TOGETHER || start > MOST_TOGETHER || string.len() > MOST_TOGETHER - start {
            return Err(AllocError);
        }
        let end = start + string.len();
        self.bytes.extend_from_slice(string)?;
        self.entries.push(Entry {
            start: start as u32,
            end: end as u32,
            hash,
        })?;
        Ok(())
    }

    /// Takes away the strings from this number on.
    pub(crate) fn truncate(&mut self, count: usize)
        ensures { self.new ≡ take count self.old }
    {
        self.entries.truncate(count);
    }
}
