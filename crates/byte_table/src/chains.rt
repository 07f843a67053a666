//! Chains of strings by their hashes.
ghost use Rattle.std.specs.Prelude.{◌≡◌, ◌+◌, ◌<◌, ◌≤◌, ◌^◌, ◌++◌, [], ◌∷◌, false, length, map, replicate, slice_get, IfOk, MatchOption, OnErr, OnOk, Some};
ghost use Rattle.std.specs.List.{list_any};
ghost use Rattle.std.specs.Str.{bytes_eq};
ghost use Rattle.byte_table.specs.Hashes.{hash_of};
ghost use Rattle.byte_table.specs.Links.{AreLinked, IsChained, LinksOneMore};

use crate::strings::Strings;
use std::alloc::{AllocError, Global};

/// The fewest strings for which there is room.
const FEWEST: usize = 4;

/// For each bucket its last string, and for each string the one before it in its bucket; both are counted from
/// 1, and 0 is none.
#[derive(Drop)]
pub(crate) struct Chains {
    pub(crate) heads: Vec<u32>,
    pub(crate) nexts: Vec<u32>,
}

/// Where a string was found, and how many others were passed on the way.
#[derive(Clone, Copy)]
pub(crate) struct Walk {
    pub(crate) found: Option<usize>,
    pub(crate) passed: usize,
}

/// Links one string more.
pub(crate) fn link(heads: &mut [u32], nexts: &mut [u32], hash: u32, at: u32)
    requires some { 0 < length heads.old }
    requires within { at < length nexts.old }
    requires fits { at + 1 < 2 ^ 32 }
    ensures { LinksOneMore hash at heads.old nexts.old heads.new nexts.new }
{
    let bucket = hash as usize % heads.len();
    nexts[at as usize] = heads[bucket];
    heads[bucket] = at + 1;
}

/// Links all strings, where none is linked.
fn link_all(heads: &mut [u32], nexts: &mut [u32], strings: &Strings)
    requires some { 0 < length heads.old }
    requires room { length strings.now ≤ length nexts.old }
    requires none { heads.old ≡ replicate (length heads.old) 0 }
    ensures { AreLinked (length heads.old) (map hash_of strings.now) nexts.new heads.new (length strings.now) }
{
    for at in 0..strings.len() {
        link(heads, nexts, strings.hash(at), at as u32);
    }
}

impl Chains {
    /// Chains without room.
    pub(crate) fn new(alloc: Global) -> Chains
        ensures heads { result.heads.items ≡ [] }
        ensures nexts { result.nexts.items ≡ [] }
    {
        Chains {
            heads: Vec::new(alloc),
            nexts: Vec::new(alloc),
        }
    }

    /// Chains of these strings, with room for so many.
    fn of(strings: &Strings, size: usize) -> Result<Chains, AllocError>
        requires some { 0 < size }
        requires room { length strings.now ≤ size }
        ensures chained { IfOk result (λ chains. IsChained strings.now chains.heads.items chains.nexts.items) }
        ensures size { IfOk result (λ chains. length chains.nexts.items ≡ size) }
    {
        let alloc = strings.allocator();
        let mut heads = vec![in alloc; 0u32; size]?;
        let mut nexts = vec![in alloc; 0u32; size]?;
        link_all(heads.as_mut_slice(), nexts.as_mut_slice(), strings);
        Ok(Chains { heads, nexts })
    }

    /// Makes room for one string more.
    fn make_room(&mut self, strings: &Strings) -> Result<(), AllocError>
        requires { IsChained strings.now self.old.heads.items self.old.nexts.items }
        ensures chained { IsChained strings.now self.new.heads.items self.new.nexts.items }
        ensures room { OnOk result (length strings.now < length self.new.nexts.items) }
    {
        let count = strings.len();
        if count < self.nexts.len() {
            return Ok(());
        }
        let size = count.saturating_mul(2).max(FEWEST);
        *self = Chains::of(strings, size)?;
        Ok(())
    }

    /// Walks along the chain of a string that has this hash.
    pub(crate) fn walk(&self, strings: &Strings, hash: u32, string: &[u8]) -> Walk
        requires chained { IsChained strings.now self.now.heads.items self.now.nexts.items }
        requires hash { hash ≡ hash_of string.now }
        ensures { MatchOption result.found (list_any (bytes_eq string.now) strings.now ≡ false) (λ at. slice_get strings.now at ≡ Some string.now) }
    {
        let heads = self.heads.as_slice();
        let nexts = self.nexts.as_slice();
        let mut passed = 0usize;
        if heads.is_empty() {
            return Walk {
                found: None,
                passed,
            };
        }
        let mut at = heads[hash as usize % heads.len()] as usize;
        while at > 0 {
            if strings.is_at(at - 1, hash, string) {
                return Walk {
                    found: Some(at - 1),
                    passed,
                };
            }
            at = nexts[at - 1] as usize;
            passed = passed.saturating_add(1);
        }
        Walk {
            found: None,
            passed,
        }
    }

    /// Puts a string that has this hash behind all others, and links it.
    pub(crate) fn push(
        &mut self,
        strings: &mut Strings,
        hash: u32,
        string: &[u8],
    ) -> Result<(), AllocError>
        requires chained { IsChained strings.old self.old.heads.items self.old.nexts.items }
        requires hash { hash ≡ hash_of string.now }
        ensures chained { IsChained strings.new self.new.heads.items self.new.nexts.items }
        ensures added { OnOk result (strings.new ≡ strings.old ++ string.now ∷ []) }
        ensures same { OnErr result (strings.new ≡ strings.old) }
    {
        self.make_room(strings)?;
        let count = strings.len();
        strings.push(hash, string)?;
        link(
            self.heads.as_mut_slice(),
            self.nexts.as_mut_slice(),
            hash,
            count as u32,
        );
        Ok(())
    }
}
