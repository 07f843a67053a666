//! What few groups have beside their parts: places of many quantiles, a time, and exemplars.
ghost use Rattle.std.specs.Prelude.{◌≡◌, ◌&&◌, not, filter_map, Some, IfOk, OnOk};
ghost use Rattle.std.specs.List.{list_any};
ghost use Rattle.exact_decimal.specs.declared.number.Number.{Number as AnyNumber};
ghost use Rattle.sample_groups.specs.ExtraValues.{no_extra, with_exemplar};
ghost use Rattle.sample_groups.specs.Extras.{extra_in};
ghost use Rattle.sample_groups.specs.Groups.{quantile_in, is_measure, exemplar_in};
ghost use Rattle.sample_groups.specs.Kept.{KnowsPlaces, with_place, AddsPlace, AddsTime, AddsMember};
ghost use Rattle.sample_groups.specs.Members.{member_behind};
ghost use Rattle.sample_groups.specs.Places.{has_place};

use crate::member::MemberRef;
use crate::part::Part;
use crate::parts;
use crate::places::{FEW_PARTS, Places, more_places};
use exact_decimal::Decimal;
use label_sets::{List, Memory};
use page_model::Exemplar;
use std::alloc::Global;
use std::marker::Model;

/// What few groups have beside their parts.
#[derive(Drop)]
pub(crate) struct Extra {
    /// The places of its quantiles, where they are too many to be looked through.
    places: Option<Places>,
    /// The time of its first part that is more than a created time.
    time: Option<u64>,
    exemplars: Vec<Exemplar>,
}

impl Model for Extra {
    ghost use Rattle.sample_groups.specs.ExtraValues.{ExtraValue};

    ghost Value = { ExtraValue };

    ghost view = { λ x. record { places = x.places; time = x.time; exemplars = x.exemplars.items } };
}

impl Extra {
    /// None of them. It takes no memory.
    fn new(alloc: Global) -> Extra
        ensures { result ≡ no_extra }
    {
        Extra {
            places: None,
            time: None,
            exemplars: Vec::new(alloc),
        }
    }

    /// Sets the time.
    fn set_time(&mut self, time: Option<u64>)
        ensures { self.new ≡ record self.old { time = time } }
    {
        self.time = time;
    }

    /// Puts an exemplar behind the others.
    fn push(&mut self, exemplar: Exemplar) -> Result<(), Memory>
        ensures { OnOk result (self.new ≡ with_exemplar self.old (Some exemplar)) }
    {
        self.exemplars.push(exemplar)?;
        Ok(())
    }

    /// Keeps the place of a quantile more, where the places are kept, or now are because there are many parts.
    fn add_place(&mut self, alloc: Global, parts: &[Part], at: &Decimal) -> Result<(), Memory>
        requires { KnowsPlaces self.old.places (filter_map quantile_in parts.now) }
        ensures places { (value : AnyNumber) → OnOk result (KnowsPlaces self.new.places (with_place parts.now at.now value)) }
        ensures rest { OnOk result (self.new ≡ record self.old { places = self.new.places }) }
    {
        let places = self.places.take();
        let places = more_places(alloc, places, parts, at)?;
        self.places = places;
        Ok(())
    }

    /// Whether one of the quantiles of a group of these parts stands at this place.
    fn has_place(&self, parts: &[Part], at: &Decimal) -> bool
        requires { KnowsPlaces self.now.places (filter_map quantile_in parts.now) }
        ensures { result ≡ has_place (filter_map quantile_in parts.now) at.now }
    {
        match &self.places {
            Some(places) => places.has(at),
            None => parts::has_place(parts, at),
        }
    }

    /// The time.
    fn time(&self) -> Option<u64>
        ensures { result ≡ self.now.time }
    {
        self.time
    }

    /// The exemplars.
    fn into_exemplars(self) -> Vec<Exemplar>
        ensures { result.items ≡ self.exemplars }
    {
        let Extra {
            places,
            exemplars,
            ..
        } = self;
        drop(places);
        exemplars
    }
}

/// The time that is kept.
pub(crate) fn kept_time(extra: &Option<Box<Extra>>) -> Option<u64>
    ensures { result ≡ (extra_in extra.now).time }
{
    match extra {
        Some(extra) => extra.time(),
        None => None,
    }
}

/// The exemplars that are kept. Where there are none it takes no memory.
pub(crate) fn kept_exemplars(
    alloc: Global,
    extra: Option<Box<Extra>>,
) -> Result<List<Exemplar>, Memory>
    ensures { IfOk result (λ exemplars. exemplars ≡ (extra_in extra).exemplars) }
{
    match extra {
        Some(extra) => {
            let exemplars = List::from_vec(Box::into_inner(extra).into_exemplars())?;
            Ok(exemplars)
        }
        None => Ok(List::new(alloc)),
    }
}

/// Whether one of the quantiles of a group of these parts stands at this place.
pub(crate) fn has_place(extra: &Option<Box<Extra>>, parts: &[Part], at: &Decimal) -> bool
    requires { KnowsPlaces (extra_in extra.now).places (filter_map quantile_in parts.now) }
    ensures { result ≡ has_place (filter_map quantile_in parts.now) at.now }
{
    match extra {
        Some(extra) => extra.has_place(parts, at),
        None => parts::has_place(parts, at),
    }
}

/// Keeps the place of a quantile more of a group of these parts, where its places are kept, or now are.
fn put_place(
    alloc: Global,
    extra: &mut Option<Box<Extra>>,
    parts: &[Part],
    at: &Decimal,
) -> Result<(), Memory>
    requires { KnowsPlaces (extra_in extra.old).places (filter_map quantile_in parts.now) }
    ensures places { (value : AnyNumber) → OnOk result (KnowsPlaces (extra_in extra.new).places (with_place parts.now at.now value)) }
    ensures rest { OnOk result (extra_in extra.new ≡ record (extra_in extra.old) { places = (extra_in extra.new).places }) }
{
    match extra {
        Some(extra) => extra.add_place(alloc, parts, at),
        None if parts.len() < FEW_PARTS => Ok(()),
        None => {
            let mut first = Extra::new(alloc);
            match first.add_place(alloc, parts, at) {
                Ok(()) => {
                    *extra = Some(Box::new(alloc, first)?);
                    Ok(())
                }
                Err(fault) => {
                    drop(first);
                    Err(fault)
                }
            }
        }
    }
}

/// Nothing but a time, or nothing at all. Without a time it takes no memory.
fn time_alone(alloc: Global, time: Option<u64>) -> Result<Option<Box<Extra>>, Memory>
    ensures { IfOk result (λ extra. extra_in extra ≡ record no_extra { time = time }) }
{
    match time {
        Some(time) => {
            let mut extra = Extra::new(alloc);
            extra.set_time(Some(time));
            Ok(Some(Box::new(alloc, extra)?))
        }
        None => Ok(None),
    }
}

/// Keeps this time, or none.
fn put_time(alloc: Global, extra: &mut Option<Box<Extra>>, time: Option<u64>) -> Result<(), Memory>
    ensures { OnOk result (extra_in extra.new ≡ record (extra_in extra.old) { time = time }) }
{
    match extra {
        Some(extra) => {
            extra.set_time(time);
            Ok(())
        }
        None => {
            *extra = time_alone(alloc, time)?;
            Ok(())
        }
    }
}

/// Keeps an exemplar more.
fn put_exemplar(
    alloc: Global,
    extra: &mut Option<Box<Extra>>,
    exemplar: Exemplar,
) -> Result<(), Memory>
    ensures { OnOk result (extra_in extra.new ≡ with_exemplar (extra_in extra.old) (Some exemplar)) }
{
    match extra {
        Some(extra) => extra.push(exemplar),
        None => {
            let mut first = Extra::new(alloc);
            match first.push(exemplar) {
                Ok(()) => {
                    *extra = Some(Box::new(alloc, first)?);
                    Ok(())
                }
                Err(fault) => {
                    drop(first);
                    Err(fault)
                }
            }
        }
    }
}

/// Whether a part is more than a created time, and the first one that is.
fn is_first(parts: &[Part], part: &Part) -> bool
    ensures { result ≡ (is_measure part.now && not (list_any is_measure parts.now)) }
{
    part.is_measure() && !parts::has_measure(parts)
}

/// Keeps the place of a part behind these, where it is a quantile and the places are kept.
fn add_place(
    alloc: Global,
    extra: &mut Option<Box<Extra>>,
    parts: &[Part],
    part: &Part,
) -> Result<(), Memory>
    requires { KnowsPlaces (extra_in extra.old).places (filter_map quantile_in parts.now) }
    ensures { OnOk result (AddsPlace (extra_in extra.old) parts.now part.now (extra_in extra.new)) }
{
    match part.quantile() {
        Some(quantile) => put_place(alloc, extra, parts, &quantile.at),
        None => Ok(()),
    }
}

/// Keeps the time of a member behind these parts, where it is the first that is more than a created time.
fn add_time(
    alloc: Global,
    extra: &mut Option<Box<Extra>>,
    parts: &[Part],
    member: &MemberRef<'_>,
) -> Result<(), Memory>
    ensures { OnOk result (AddsTime (extra_in extra.old) parts.now (member_behind member.now) (extra_in extra.new)) }
{
    if !is_first(parts, member.part) {
        return Ok(());
    }
    put_time(alloc, extra, member.time)
}

/// Keeps the exemplar of a member, where it may have one.
fn add_exemplar(
    alloc: Global,
    extra: &mut Option<Box<Extra>>,
    member: &MemberRef<'_>,
) -> Result<(), Memory>
    ensures { OnOk result (extra_in extra.new ≡ with_exemplar (extra_in extra.old) (exemplar_in (member_behind member.now))) }
{
    let exemplar = member.own_exemplar()?;
    match exemplar {
        Some(exemplar) => put_exemplar(alloc, extra, exemplar),
        None => Ok(()),
    }
}

/// Keeps what a member behind these parts has beside its part. Most members have nothing, which takes no memory.
pub(crate) fn add_member(
    alloc: Global,
    extra: &mut Option<Box<Extra>>,
    parts: &[Part],
    member: &MemberRef<'_>,
) -> Result<(), Memory>
    requires { KnowsPlaces (extra_in extra.old).places (filter_map quantile_in parts.now) }
    ensures { OnOk result (AddsMember (extra_in extra.old) parts.now (member_behind member.now) (extra_in extra.new)) }
{
    add_place(alloc, extra, parts, member.part)?;
    add_time(alloc, extra, parts, member)?;
    add_exemplar(alloc, extra, member)
}
