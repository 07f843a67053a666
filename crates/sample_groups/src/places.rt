//! The places of a summary's quantiles, found in their order.
ghost use Rattle.std.specs.Prelude.{◌≡◌, [], ◌||◌, filter_map, IfOk, OnOk};
ghost use Rattle.exact_decimal.specs.declared.number.Number.{Number as AnyNumber};
ghost use Rattle.exact_decimal.specs.declared.number.Number.TheVariants.{Finite};
ghost use Rattle.exact_decimal.specs.Decimals.{DecimalValue};
ghost use Rattle.exact_decimal.specs.Order.{same};
ghost use Rattle.sample_groups.specs.Places.{is_place_in};
ghost use Rattle.sample_groups.specs.Places.{HasPlacesOf};
ghost use Rattle.sample_groups.specs.Groups.{quantile_in};
ghost use Rattle.sample_groups.specs.Kept.{KnowsPlaces, with_place};

use crate::part::Part;
use exact_decimal::{Decimal, compare};
use label_sets::Memory;
use std::alloc::Global;
use std::cmp::Ordering;
use std::collections::BTreeSet;
use std::marker::Model;

/// A place, which is the same as any other of its value.
#[derive(Drop)]
pub(crate) struct Place {
    at: Decimal,
}

impl PartialEq for Place {
    ghost use Rattle.std.specs.Ordering.{eq_by_cmp};
    ghost use Rattle.std.specs.Cmp.{partial_equiv_from_equiv, eq_by_cmp_equiv};
    ghost use Rattle.sample_groups.specs.PlaceOrder.{place_cmp};
    ghost use Rattle.sample_groups.specs.PlaceOrder.{place_cmp_total};

    ghost eq = { eq_by_cmp place_cmp };

    ghost laws = { partial_equiv_from_equiv (eq_by_cmp_equiv place_cmp_total) };

    fn eq(&self, other: &Place) -> bool {
        compare(&self.at, &other.at).is_eq()
    }
}

impl Eq for Place {
    ghost use Rattle.std.specs.Cmp.{eq_by_cmp_equiv};
    ghost use Rattle.sample_groups.specs.PlaceOrder.{place_cmp_total};

    ghost laws = { eq_by_cmp_equiv place_cmp_total };
}

impl PartialOrd for Place {
    ghost use Rattle.std.specs.Prelude.{refl};
    ghost use Rattle.std.specs.Ordering.{as_partial_cmp};
    ghost use Rattle.std.specs.Cmp.{po};
    ghost use Rattle.sample_groups.specs.PlaceOrder.{place_cmp};
    ghost use Rattle.sample_groups.specs.PlaceOrder.{place_cmp_total};

    ghost partial_cmp = { as_partial_cmp place_cmp };

    ghost laws = { po place_cmp_total (λ a b. refl) };

    fn partial_cmp(&self, other: &Place) -> Option<Ordering> {
        Some(self.cmp(other))
    }
}

impl Ord for Place {
    ghost use Rattle.std.specs.Prelude.{refl};
    ghost use Rattle.sample_groups.specs.PlaceOrder.{place_cmp};
    ghost use Rattle.sample_groups.specs.PlaceOrder.{place_cmp_total};

    ghost cmp = { place_cmp };

    ghost total = { place_cmp_total };

    ghost matches_partial_cmp = { λ a b. refl };

    ghost matches_eq = { λ a b. refl };

    fn cmp(&self, other: &Place) -> Ordering {
        compare(&self.at, &other.at)
    }
}

/// Places, each once, in their order.
#[derive(Drop)]
pub(crate) struct Places {
    set: BTreeSet<Place>,
}

impl Model for Places {
    ghost use Rattle.std.specs.Prelude as spec;
    ghost use Rattle.exact_decimal.specs.Decimals.{DecimalValue};
    ghost use Rattle.sample_groups.specs.declared.places.Place.{Place};

    ghost Value = { spec.List DecimalValue };

    ghost view = { λ p. spec.map (λ (q : Place). q.at) p.set.keys };
}

impl Places {
    /// No places. It takes no memory.
    pub(crate) fn new(alloc: Global) -> Places
        ensures { result ≡ [] }
    {
        Places {
            set: BTreeSet::new(alloc),
        }
    }

    /// Whether a place is among them.
    pub(crate) fn has(&self, at: &Decimal) -> bool
        ensures { result ≡ is_place_in self.now at.now }
    {
        self.set.contains(&Place { at: *at })
    }

    /// Adds a place.
    pub(crate) fn insert(&mut self, at: &Decimal) -> Result<(), Memory>
        ensures { OnOk result ((d : DecimalValue) → is_place_in self.new d ≡ (same (Finite at.now) (Finite d) || is_place_in self.old d)) }
    {
        self.set.insert(Place { at: *at })?;
        Ok(())
    }
}

/// Up to so many parts are looked through for a place; then their places are kept beside them.
pub(crate) const FEW_PARTS: usize = 16;

/// The places of the quantiles among these parts.
fn places_of(alloc: Global, parts: &[Part]) -> Result<Places, Memory>
    ensures { IfOk result (HasPlacesOf (filter_map quantile_in parts.now)) }
{
    let mut places = Places::new(alloc);
    for part in parts {
        if let Part::Quantile(quantile) = part {
            places.insert(&quantile.at)?;
        }
    }
    Ok(places)
}

/// The places with one more, where they are kept, or now are because there are many parts.
pub(crate) fn more_places(
    alloc: Global,
    places: Option<Places>,
    parts: &[Part],
    at: &Decimal,
) -> Result<Option<Places>, Memory>
    requires { KnowsPlaces places (filter_map quantile_in parts.now) }
    ensures { (value : AnyNumber) → IfOk result (λ more. KnowsPlaces more (with_place parts.now at.now value)) }
{
    match places {
        Some(mut places) => {
            places.insert(at)?;
            Ok(Some(places))
        }
        None if parts.len() < FEW_PARTS => Ok(None),
        None => {
            let mut places = places_of(alloc, parts)?;
            places.insert(at)?;
            Ok(Some(places))
        }
    }
}
