//! The pairs of wires of a world in memory.
ghost use Rattle.std.specs.Prelude.{◌≡◌, ◌==◌, ◌<◌, ℕ, List, ◌∷◌, [], ◌++◌, map, Option, Some, None, option_map, IsSome, IfOk, OnOk, OnErr, true, false, All, vec_len, slice_index_or, slice_set};
ghost use Rattle.bridge_ports.specs.Worlds.{IsHome, KeepsOthers};
ghost use Rattle.bridge_ports.specs.MemoryWorlds.{or_bare};
ghost use Rattle.bridge_ports.specs.WorldMaking.{away};
ghost use Rattle.memory_world.specs.WorldParts.{pair_seen, fresh_pair, fresh_of, IsFirstOut};

use crate::keyed::{Keyed, place_of};
use bridge_ports::{Address, MemoryPair, MemoryWire, Place, Shelved};
use label_sets::{List, Memory};
use std::alloc::Global;
use std::marker::Model;
use std::mem;

/// A pair that was handed out: its wires where they are at home again, and the addresses with which it was
/// handed out last.
#[derive(Drop)]
pub(crate) struct KeptPair {
    number: u32,
    wires: Option<Shelved>,
    scrape: Address,
    post: Address,
}

impl Keyed<u32> for KeptPair {
    ghost has_key = { λ pair number. pair.number == number };

    fn is_of(&self, key: &u32) -> bool {
        self.number == *key
    }
}

impl Keyed<u32> for MemoryPair {
    ghost has_key = { λ pair number. pair.number == number };

    fn is_of(&self, key: &u32) -> bool {
        self.number == *key
    }
}

/// The pairs that were handed out, and those that were given and never handed out.
#[derive(Drop)]
pub(crate) struct MemoryPairs {
    kept: Vec<KeptPair>,
    fresh: Vec<MemoryPair>,
}

impl Model for MemoryPairs {
    ghost use Rattle.std.specs.Prelude as spec;
    ghost use Rattle.bridge_ports.specs.MemoryWorlds.{PairState};
    ghost use Rattle.memory_world.specs.WorldParts.{pairs_state, HavePlaces};

    ghost Value = { spec.List PairState };

    ghost view = { λ p. pairs_state p.kept.items p.fresh.items };

    ghost invariant = { λ p. HavePlaces p.kept.items p.fresh.items };
}

impl MemoryPairs {
    ghost use Rattle.bridge_ports.specs.Plans.{seen_of};
    ghost use Rattle.bridge_ports.specs.MemoryWorlds.{pair_of, given_of};
    ghost use Rattle.bridge_ports.specs.WorldMaking.{shown_pair};
    ghost use Rattle.memory_world.specs.WorldParts.{both_wires, found_pair, addresses_kept, IsFreshRight};

    /// The pairs that were given. It takes no memory.
    pub(crate) fn new(alloc: Global, fresh: Vec<MemoryPair>) -> MemoryPairs
        requires { All IsFreshRight fresh.items }
        ensures { result ≡ map fresh_pair fresh.items }
    {
        MemoryPairs {
            kept: Vec::new(alloc),
            fresh,
        }
    }

    /// The wires of a number, where the pair was given or came back and is at home.
    pub(crate) fn home(&self, number: u32) -> Option<&Shelved>
        ensures { option_map (λ wires. both_wires wires.now) result ≡ shown_pair self.now number }
    {
        let place = place_of(self.kept.as_slice(), &number);
        if place < self.kept.len() {
            return self.kept[place].wires.as_ref();
        }
        let place = place_of(self.fresh.as_slice(), &number);
        if place < self.fresh.len() {
            return Some(&self.fresh[place].wires);
        }
        None
    }

    /// Hands out the wires of a number, which are at home, to these addresses.
    pub(crate) fn hand_out(
        &mut self,
        alloc: Global,
        number: u32,
        scrape: &Address,
        post: &Address,
    ) -> Result<Shelved, Memory>
        requires { IsSome (pair_of self.old number) }
        ensures pair { IfOk result (λ wires. pair_of self.old number ≡ Some (both_wires wires)) }
        ensures scrape { IfOk result (λ wires. IsHome number false (seen_of wires.scrape)) }
        ensures post { IfOk result (λ wires. IsHome number true (seen_of wires.post)) }
        ensures out { OnOk result (found_pair self.new number
            ≡ Some (pair_seen number None (addresses_kept scrape.now post.now))) }
        ensures others { KeepsOthers number (found_pair self.old) (found_pair self.new) }
        ensures kept { OnErr result (self.new ≡ self.old) }
    {
        let (scrape, post) = Address::copy_both(scrape, post)?;
        let pair = KeptPair {
            number,
            wires: None,
            scrape,
            post,
        };
        let place = place_of(self.kept.as_slice(), &number);
        if place < self.kept.len() {
            return Ok(out_again(&mut self.kept, place, pair));
        }
        self.kept.reserve(1)?;
        let wires = out_first(alloc, &mut self.fresh, number);
        self.kept.push_reserved(pair);
        Ok(wires)
    }

    /// Takes the wires of a pair back that was handed out.
    pub(crate) fn take_back(&mut self, number: u32, wires: Shelved)
        requires given { IsSome (given_of self.old number) }
        requires scrape { IsHome number false (seen_of wires.scrape) }
        requires post { IsHome number true (seen_of wires.post) }
        ensures back { found_pair self.new number
            ≡ Some (pair_seen number (Some (both_wires wires)) (given_of self.old number)) }
        ensures others { KeepsOthers number (found_pair self.old) (found_pair self.new) }
    {
        let place = place_of(self.kept.as_slice(), &number);
        self.kept[place].wires = Some(wires);
    }
}

/// Takes the wires, which are at home, of the pair at this place, and keeps this pair there.
fn out_again(kept: &mut Vec<KeptPair>, place: usize, pair: KeptPair) -> Shelved
    requires place { place < vec_len kept.old }
    requires home { IsSome (slice_index_or kept.old.items place pair).wires }
    ensures wires { (slice_index_or kept.old.items place pair).wires ≡ Some result }
    ensures kept { kept.new.items ≡ slice_set kept.old.items place pair }
{
    let before = mem::replace(&mut kept[place], pair);
    before.wires.unwrap()
}

/// Takes the wires of a number out of those that were given, or makes wires without replies.
fn out_first(alloc: Global, fresh: &mut Vec<MemoryPair>, number: u32) -> Shelved
    requires { IsSome (or_bare number (option_map fresh_pair (fresh_of fresh.old.items number))) }
    ensures { IsFirstOut number fresh.old.items fresh.new.items result }
{
    let place = place_of(fresh.as_slice(), &number);
    if place < fresh.len() {
        return fresh.remove(place).wires;
    }
    Shelved {
        scrape: bare_wire(alloc, number, false),
        post: bare_wire(alloc, number, true),
    }
}

/// A wire without replies.
fn bare_wire(alloc: Global, number: u32, post: bool) -> MemoryWire
    ensures { result ≡ away number post }
{
    MemoryWire::new(
        alloc,
        Place { number, post },
        List::new(alloc),
        None,
        1,
        List::new(alloc),
    )
}
