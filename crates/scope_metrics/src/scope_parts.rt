//! The readings of a page that have points, and markers, by their scopes.
ghost use Rattle.std.specs.Prelude.{◌≡◌, ◌∷◌, [], map, All, IfOk, OnOk};
ghost use Rattle.std.specs.List.{filter_map, zip};
ghost use Rattle.page_model.specs.declared.page.Family.{Family as AnyFamily};
ghost use Rattle.family_metrics.specs.Points.{MayBeLaidOut, MayAllBeLaidOut};
ghost use Rattle.family_metrics.specs.Scopes.{bridge_scope, scope_of};
ghost use Rattle.scope_metrics.specs.ScopeParts as spec;

use crate::scopes::{scope_bytes, scope_texts};
use byte_table::ByteTable;
use family_metrics::keyed::{pack, push_keyed};
use family_metrics::{Marker, next_places};
use label_sets::{Kind, LabelSet, List, Memory, Text};
use page_model::{Family, Reading};
use start_times::Placed;
use std::alloc::Global;
use std::marker::Model;
use target_pages::with_readings;

/// A family without its readings.
fn without_readings(alloc: Global, family: &Family) -> Result<Family, Memory>
    ensures { IfOk result (λ left. left ≡ spec.family_holding family.now []) }
{
    with_readings(family, List::new(alloc))
}

/// The family whose readings may still come, and its number among those of its page.
#[derive(Drop)]
pub(crate) struct LastFamily {
    number: usize,
    /// Without its readings.
    family: Family,
    readings: Vec<Reading>,
}

impl Model for LastFamily {
    ghost use Rattle.scope_metrics.specs.ScopeParts.{LastOfScope, family_holding};
    ghost use Rattle.family_metrics.specs.Points.{MayAllBeLaidOut as AreLaidOut};

    ghost Value = { LastOfScope };

    ghost view = { λ l. record { number = l.number; family = family_holding l.family l.readings.items } };

    ghost invariant = { λ l. AreLaidOut l.readings.items };
}

impl LastFamily {
    /// A family of which no reading came yet.
    fn of(alloc: Global, number: usize, family: &Family) -> Result<LastFamily, Memory>
        ensures { IfOk result (λ l. l ≡ record { number = number; family = spec.family_holding family.now [] }) }
    {
        let family = without_readings(alloc, family)?;
        Ok(LastFamily {
            number,
            family,
            readings: Vec::new(alloc),
        })
    }

    /// Puts a reading behind the others.
    fn add(&mut self, reading: Reading) -> Result<(), Memory>
        requires { MayBeLaidOut reading.value }
        ensures { OnOk result (self.new ≡ spec.last_grown reading self.old) }
    {
        self.readings.push(reading)?;
        Ok(())
    }

    /// The family with its readings.
    fn into_family(self) -> Result<Family, Memory>
        ensures family { IfOk result (λ f. f ≡ self.family) }
        ensures right { IfOk result (λ f. MayAllBeLaidOut f.readings) }
    {
        let mut family = self.family;
        family.readings = List::from_vec(self.readings)?;
        Ok(family)
    }
}

/// What is of one scope: the families of its readings, the places of these, and its markers.
#[derive(Drop)]
pub(crate) struct ScopePart {
    pub(crate) name: Text,
    pub(crate) version: Text,
    /// All but the last.
    pub(crate) families: Vec<Family>,
    pub(crate) last: Option<LastFamily>,
    pub(crate) places: Vec<Option<Placed>>,
    pub(crate) markers: Vec<Marker>,
}

impl Model for ScopePart {
    ghost use Rattle.std.specs.Prelude as prelude;
    ghost use Rattle.page_model.specs.declared.page.Family.{Family as FamilyOf};
    ghost use Rattle.scope_metrics.specs.ScopeParts.{OfScope};
    ghost use Rattle.family_metrics.specs.Points.{MayAllBeLaidOut as AreLaidOut};

    ghost Value = { OfScope };

    ghost view = { λ p. record { scope = record { name = p.name; version = p.version }; families = p.families.items; last = p.last; places = p.places.items; markers = p.markers.items } };

    ghost invariant = { λ p. prelude.All (λ (f : FamilyOf). AreLaidOut f.readings) p.families.items };
}

impl ScopePart {
    /// A scope without series.
    fn new(alloc: Global, name: Text, version: Text) -> ScopePart
        ensures { result ≡ spec.no_series (record { name = name; version = version }) }
    {
        ScopePart {
            name,
            version,
            families: Vec::new(alloc),
            last: None,
            places: Vec::new(alloc),
            markers: Vec::new(alloc),
        }
    }

    /// The scope of a series with these labels, without series.
    fn of(alloc: Global, labels: &LabelSet) -> Result<ScopePart, Memory>
        ensures { IfOk result (λ part. part ≡ spec.no_series (scope_of labels.now)) }
    {
        let (name, version) = scope_texts(alloc, labels)?;
        Ok(ScopePart::new(alloc, name, version))
    }

    /// Whether the family of this number is the last one.
    fn is_last(&self, number: usize) -> bool
        ensures { result ≡ spec.is_last number self.now.last }
    {
        match &self.last {
            Some(last) => last.number == number,
            None => false,
        }
    }

    /// Puts the last family behind the others.
    #[tactic(auto, unfolding(crate::specs::ScopeParts::closed_part))]
    pub(crate) fn close(&mut self) -> Result<(), Memory>
        ensures closed_part { OnOk result (self.new ≡ spec.closed_part self.old) }
        ensures scope { self.new.scope ≡ self.old.scope }
        ensures right { OnOk result (All (λ (f : AnyFamily). MayAllBeLaidOut f.readings) self.new.families) }
    {
        let Some(last) = self.last.take() else {
            return Ok(());
        };
        let family = last.into_family()?;
        self.families.push(family)?;
        Ok(())
    }

    /// Makes the family of this number the last one.
    #[tactic(auto, unfolding(crate::specs::ScopeParts::closed_part, crate::specs::ScopeParts::part_with_last))]
    fn begin(&mut self, alloc: Global, number: usize, family: &Family) -> Result<(), Memory>
        ensures begun { OnOk result (self.new ≡ spec.part_with_last number family.now self.old) }
        ensures scope { self.new.scope ≡ self.old.scope }
    {
        if self.is_last(number) {
            return Ok(());
        }
        self.close()?;
        let last = LastFamily::of(alloc, number, family)?;
        self.last = Some(last);
        Ok(())
    }

    /// Puts a reading behind those of the last family.
    #[tactic(auto, unfolding(crate::specs::ScopeParts::reading_behind))]
    fn push(&mut self, reading: Reading, place: Option<Placed>) -> Result<(), Memory>
        requires { MayBeLaidOut reading.value }
        ensures put { OnOk result (self.new ≡ spec.reading_behind reading place self.old) }
        ensures scope { self.new.scope ≡ self.old.scope }
    {
        match &mut self.last {
            Some(last) => last.add(reading)?,
            None => drop(reading),
        }
        self.places.push(place)?;
        Ok(())
    }

    /// Puts a reading of the family of this number, and its place, behind the others.
    fn add_reading(
        &mut self,
        alloc: Global,
        number: usize,
        family: &Family,
        reading: &Reading,
        place: Option<Placed>,
    ) -> Result<(), Memory>
        requires { MayBeLaidOut reading.now.value }
        ensures put { OnOk result (self.new ≡ spec.item_behind self.old (spec.of_reading number family.now reading.now place)) }
        ensures scope { self.new.scope ≡ self.old.scope }
    {
        self.begin(alloc, number, family)?;
        let reading = reading.copy()?;
        self.push(reading, place)
    }

    /// Puts a marker behind the others.
    #[tactic(auto, unfolding(crate::specs::ScopeParts::marker_behind))]
    fn add_marker(&mut self, marker: Marker) -> Result<(), Memory>
        ensures put { OnOk result (self.new ≡ spec.item_behind self.old (spec.of_marker marker)) }
        ensures scope { self.new.scope ≡ self.old.scope }
    {
        self.markers.push(marker)?;
        Ok(())
    }
}

/// Readings and markers by their scopes, first the bridge's own, then in the order of their first ones. A scope is
/// found by its bytes.
#[derive(Drop)]
pub(crate) struct ScopeParts {
    scopes: ByteTable,
    parts: Vec<ScopePart>,
    /// The room in which a scope is packed.
    packed: Vec<u8>,
}

impl Model for ScopeParts {
    ghost use Rattle.std.specs.Prelude as prelude;
    ghost use Rattle.std.specs.Prelude.{◌≡◌};
    ghost use Rattle.scope_metrics.specs.ScopeParts.{OfScope, part_identity};

    ghost Value = { prelude.List OfScope };

    ghost view = { λ p. p.parts.items };

    ghost invariant = { λ p. p.scopes ≡ prelude.map part_identity p.parts.items };
}

impl ScopeParts {
    /// The place of the part of the scope of a series with these labels, which is put behind the others where there
    /// is none.
    fn place_for(&mut self, alloc: Global, labels: &LabelSet) -> Result<usize, Memory>
        ensures { IfOk result (spec.IsPartFor (scope_of labels.now) self.old self.new) }
    {
        let (name, version) = scope_bytes(labels);
        pack(&mut self.packed, name, Kind::Unknown, version)?;
        let packed = self.packed.as_slice();
        match self.scopes.find(packed) {
            Some(at) => Ok(at),
            None => {
                let at = self.scopes.len();
                let part = ScopePart::of(alloc, labels)?;
                push_keyed(&mut self.scopes, &mut self.parts, packed, part)?;
                Ok(at)
            }
        }
    }

    /// The bridge's own scope, without series.
    fn new(alloc: Global) -> Result<ScopeParts, Memory>
        ensures { IfOk result (λ parts. parts ≡ spec.items_by_scope []) }
    {
        let mut parts = ScopeParts {
            scopes: ByteTable::new(alloc),
            parts: Vec::new(alloc),
            packed: Vec::new(alloc),
        };
        parts.place_for(alloc, &LabelSet::empty(alloc))?;
        Ok(parts)
    }

    /// Puts a reading of the family of this number, and its place, behind those of its scope.
    fn add_reading(
        &mut self,
        alloc: Global,
        number: usize,
        family: &Family,
        reading: &Reading,
        place: Option<Placed>,
    ) -> Result<(), Memory>
        requires { MayBeLaidOut reading.now.value }
        ensures { OnOk result (spec.PutsBehind self.old (spec.of_reading number family.now reading.now place ∷ []) self.new) }
    {
        let at = self.place_for(alloc, &reading.key.labels)?;
        self.parts[at].add_reading(alloc, number, family, reading, place)?;
        Ok(())
    }

    /// Puts a marker behind those of its scope.
    fn add_marker(&mut self, alloc: Global, marker: Marker) -> Result<(), Memory>
        ensures { OnOk result (spec.PutsBehind self.old (spec.of_marker marker ∷ []) self.new) }
    {
        let at = self.place_for(alloc, &marker.key.labels)?;
        self.parts[at].add_marker(marker)?;
        Ok(())
    }

    /// Puts the readings of a family whose places give points behind those of their scopes.
    fn add_family(
        &mut self,
        alloc: Global,
        number: usize,
        family: &Family,
        places: &[Option<Placed>],
    ) -> Result<(), Memory>
        requires { MayAllBeLaidOut family.now.readings }
        ensures { OnOk result (spec.PutsBehind self.old (filter_map (spec.placed_item number family.now) (zip family.now.readings places.now)) self.new) }
    {
        for (reading, place) in family.readings.as_slice().iter().zip(places) {
            if is_at(*place) {
                self.add_reading(alloc, number, family, reading, *place)?;
            }
        }
        Ok(())
    }

    /// Puts the readings of families whose places give points behind those of their scopes.
    fn add_families(
        &mut self,
        alloc: Global,
        families: &[Family],
        places: &[Option<Placed>],
    ) -> Result<(), Memory>
        requires { All (λ (f : AnyFamily). MayAllBeLaidOut f.readings) families.now }
        ensures { OnOk result (self.old ≡ spec.items_by_scope [] → spec.AreReadingsByScope families.now places.now self.new) }
    {
        let mut left = places;
        for (number, family) in families.iter().enumerate() {
            let (own, rest) = next_places(left, family.readings.len());
            self.add_family(alloc, number, family, own)?;
            left = rest;
        }
        Ok(())
    }

    /// Puts markers behind those of their scopes.
    fn add_markers(&mut self, alloc: Global, markers: Vec<Marker>) -> Result<(), Memory>
        ensures { OnOk result (spec.PutsBehind self.old (map spec.of_marker markers.items) self.new) }
    {
        for marker in markers {
            self.add_marker(alloc, marker)?;
        }
        Ok(())
    }

    /// Puts the readings of families whose places give points, and markers behind them, behind those of their scopes.
    fn fill(
        &mut self,
        alloc: Global,
        families: &[Family],
        places: &[Option<Placed>],
        markers: Vec<Marker>,
    ) -> Result<(), Memory>
        requires { All (λ (f : AnyFamily). MayAllBeLaidOut f.readings) families.now }
        ensures { OnOk result (self.old ≡ spec.items_by_scope [] → spec.AreAllByScope families.now places.now markers.items self.new) }
    {
        match self.add_families(alloc, families, places) {
            Ok(()) => self.add_markers(alloc, markers),
            Err(fault) => {
                drop(markers);
                Err(fault)
            }
        }
    }

    /// The readings of families whose places give points, and markers, by their scopes.
    pub(crate) fn of(
        alloc: Global,
        families: &[Family],
        places: &[Option<Placed>],
        markers: Vec<Marker>,
    ) -> Result<ScopeParts, Memory>
        requires { All (λ (f : AnyFamily). MayAllBeLaidOut f.readings) families.now }
        ensures { IfOk result (λ parts. spec.AreAllByScope families.now places.now markers.items parts) }
    {
        let mut parts = ScopeParts::new(alloc)?;
        match parts.fill(alloc, families, places, markers) {
            Ok(()) => Ok(parts),
            Err(fault) => {
                drop(parts);
                Err(fault)
            }
        }
    }

    /// The parts in order.
    pub(crate) fn into_parts(self) -> Vec<ScopePart>
        ensures { result.items ≡ self }
    {
        self.parts
    }
}

/// Whether a place gives a point.
fn is_at(place: Option<Placed>) -> bool
    ensures { result ≡ spec.is_at place }
{
    match place {
        Some(place) => match place {
            Placed::At { .. } => true,
            Placed::Late => false,
        },
        None => false,
    }
}
