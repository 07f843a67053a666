//! The pairs of wires that were handed out.
ghost use Rattle.std.specs.Prelude.{◌≡◌, [], Some, None, option_map, true, false, IsSome, IfOk, OnOk, OnErr};
ghost use Rattle.bridge_ports.specs.Worlds.{IsHome, KeepsOthers};
ghost use Rattle.std_edge.specs.KeptPairs.{kept_seen};
ghost use Rattle.std_edge.specs.Pairs.{home_seen, home_in, last_given_in};

use crate::pace::Pace;
use crate::steady_clock::SteadyClock;
use crate::wire::NetWire;
use bridge_ports::{Address, Place};
use label_sets::Memory;
use std::alloc::Global;
use std::collections::BTreeMap;
use std::marker::Model;
use std::time::Clock;

/// A pair that was handed out: its wires, for scrapes and for posts, where they are at home again, and the
/// addresses with which it was handed out last.
#[derive(Drop)]
pub(crate) struct KeptPair<R> {
    wires: Option<(NetWire<R>, NetWire<R>)>,
    scrape: Address,
    post: Address,
}

/// The pairs that were handed out, by number.
#[derive(Drop)]
pub(crate) struct NetPairs<R> {
    kept: BTreeMap<u32, KeptPair<R>>,
}

impl<R> Model for NetPairs<R> {
    ghost use Rattle.std.specs.Prelude.{ℕ, List};
    ghost use Rattle.std_edge.specs.Pairs.{PairSeen, ArePairs};
    ghost use Rattle.std_edge.specs.KeptPairs.{pairs_seen};

    ghost Value = { List (ℕ × PairSeen) };

    ghost view = { λ p. pairs_seen p.kept };

    ghost invariant = { λ p. ArePairs (pairs_seen p.kept) };
}

impl<R> NetPairs<R> {
    /// No pairs yet.
    pub(crate) fn new(alloc: Global) -> NetPairs<R>
        ensures { result ≡ [] }
    {
        NetPairs {
            kept: BTreeMap::new(alloc),
        }
    }
}

impl<R: Drop> NetPairs<R> {
    /// Hands out the wires of a number, which are at home, to these addresses, with a new pace.
    pub(crate) fn hand_out(
        &mut self,
        machine: R,
        clock: SteadyClock,
        pace: Pace,
        number: u32,
        scrape: &Address,
        post: &Address,
    ) -> Result<(NetWire<R>, NetWire<R>), Memory>
    where
        R: Clock + Copy,
        requires { IsSome (home_in self.old number) }
        ensures pair { IfOk result (λ pair. home_in self.old number ≡ Some pair) }
        ensures scrape { IfOk result (λ pair. IsHome number false pair.0) }
        ensures post { IfOk result (λ pair. IsHome number true pair.1) }
        ensures out { OnOk result (home_in self.new number ≡ None) }
        ensures addresses { OnOk result (last_given_in self.new number
            ≡ Some (record { scrape = scrape.now; post = post.now })) }
        ensures others { KeepsOthers number (home_in self.old) (home_in self.new) }
        ensures other_addresses { KeepsOthers number (last_given_in self.old) (last_given_in self.new) }
        ensures kept { OnErr result (self.new ≡ self.old) }
    {
        let (to_scrape, to_post) = Address::copy_both(scrape, post)?;
        let (scrape, post) = Address::copy_both(scrape, post)?;
        let kept = KeptPair {
            wires: None,
            scrape,
            post,
        };
        let before = self.kept.insert(number, kept)?;
        Ok(wires_of(machine, clock, pace, number, before, to_scrape, to_post))
    }

    /// Takes the wires of a pair back that was handed out.
    pub(crate) fn take_back(&mut self, number: u32, scrape: NetWire<R>, post: NetWire<R>)
        requires given { IsSome (last_given_in self.old number) }
        requires scrape { IsHome number false scrape }
        requires post { IsHome number true post }
        ensures back { home_in self.new number ≡ Some (scrape, post) }
        ensures others { KeepsOthers number (home_in self.old) (home_in self.new) }
        ensures given { last_given_in self.new ≡ last_given_in self.old }
    {
        self.kept.get_mut(&number).unwrap().wires = Some((scrape, post));
    }
}

/// The wires of a number, to these addresses: those at home of the pair that was kept before, or new ones.
fn wires_of<R: Clock + Copy + Drop>(
    machine: R,
    clock: SteadyClock,
    pace: Pace,
    number: u32,
    before: Option<KeptPair<R>>,
    scrape: Address,
    post: Address,
) -> (NetWire<R>, NetWire<R>)
    requires { IsSome (home_seen number (option_map kept_seen before)) }
    ensures { home_seen number (option_map kept_seen before) ≡ Some result }
{
    match before {
        Some(pair) => {
            let (mut scrapes, mut posts) = pair.wires.unwrap();
            scrapes.turn_to(scrape, pace);
            posts.turn_to(post, pace);
            (scrapes, posts)
        }
        None => (
            NetWire::with_clock(
                machine,
                clock,
                pace,
                Place {
                    number,
                    post: false,
                },
                scrape,
            ),
            NetWire::with_clock(machine, clock, pace, Place { number, post: true }, post),
        ),
    }
}
