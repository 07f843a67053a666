//! The families of a target as they would stand on the page, before any conflict.
ghost use Rattle.std.specs.Prelude.{◌≡◌, ◌≢◌, [], map, filter, All, IfOk, OnOk, MatchOption};
ghost use Rattle.std.specs.Ordering.{nat_cmp};
ghost use Rattle.std.specs.Cmp.Lexicographic.{slice_cmp};
ghost use Rattle.page_model.specs.declared.format.Format.{Format};
ghost use Rattle.page_model.specs.declared.format.Treatment.TheVariants.{Scraped};
ghost use Rattle.page_model.specs.declared.page.Reading.{Reading as OneReading};
ghost use Rattle.open_writing.specs.Forms.{is_count_of_events, IsFormedFamily};
ghost use Rattle.open_writing.specs.FamilyKeys.{family_key, is_one_family};
ghost use Rattle.federation_page.specs.Candidates.{
  AreFreeLabels,
  HasNames,
  IsFirstReading,
  candidate_of,
  is_left_out,
  named_candidate,
  reading_under,
  staying_readings,
  stays,
};
ghost use Rattle.federation_page.specs.Conflicts.{joined_by};
ghost use Rattle.federation_page.specs.SetsMade.{AreMadeFor};

use crate::names::{federated_kind, federated_name};
use crate::target_sets::TargetSets;
use exact_decimal::{Number, less, of};
use label_sets::{Kind, List, Memory, Name, SeriesKey, Text};
use page_model::{Family, Reading, Shown, Value};
use std::alloc::Global;
use std::cmp::Ordering;
use std::marker::Model;

/// A family for which readings are gathered.
#[derive(Drop)]
pub(crate) struct Candidate {
    pub(crate) name: Name,
    pub(crate) kind: Kind,
    pub(crate) help: Text,
    pub(crate) unit: Text,
    pub(crate) readings: Vec<Reading>,
}

impl Model for Candidate {
    ghost use Rattle.page_model.specs.declared.page.Family.{Family as OneFamily};

    ghost Value = { OneFamily };

    ghost view = { λ c. record { name = c.name; kind = c.kind; help = c.help; unit = c.unit; readings = c.readings.items } };
}

impl Candidate {
    /// Its name.
    pub(crate) fn name(&self) -> &Name
        ensures { result.now ≡ self.now.name }
    {
        &self.name
    }

    /// Its kind.
    pub(crate) fn kind(&self) -> Kind
        ensures { result ≡ self.now.kind }
    {
        self.kind
    }

    /// The order by names.
    pub(crate) fn by_name(&self, other: &Candidate) -> Ordering
        ensures { result ≡ slice_cmp nat_cmp self.now.name other.now.name }
    {
        self.name.cmp(&other.name)
    }

    /// Whether both are one family.
    #[tactic(auto, unfolding(open_writing::specs::FamilyKeys::is_one_family))]
    fn is_one_with(&self, other: &Candidate) -> bool
        ensures { result ≡ is_one_family (family_key self.now) (family_key other.now) }
    {
        self.name == other.name && self.kind == other.kind && self.unit == other.unit
    }

    /// Its readings.
    fn into_readings(self) -> Vec<Reading>
        ensures { result.items ≡ self.readings }
    {
        self.readings
    }

    /// Makes room for so many readings in all.
    pub(crate) fn make_room(&mut self, readings: usize) -> Result<(), Memory>
        ensures { self.new ≡ self.old }
    {
        let more = readings.saturating_sub(self.readings.len());
        self.readings.reserve(more)?;
        Ok(())
    }

    /// Takes the readings of another candidate behind its own, where both are one family.
    pub(crate) fn join(&mut self, other: Candidate) -> Result<(), Memory>
        ensures { OnOk result (self.new ≡ joined_by other self.old) }
    {
        if !self.is_one_with(&other) {
            return Ok(());
        }
        let mut more = other.into_readings();
        self.readings.append(&mut more)?;
        Ok(())
    }

    /// The family, with its readings shared from here on.
    pub(crate) fn into_family(self) -> Result<Family, Memory>
        ensures { IfOk result (λ family. family ≡ self) }
    {
        Ok(Family {
            name: self.name,
            kind: self.kind,
            help: self.help,
            unit: self.unit,
            readings: List::from_vec(self.readings)?,
        })
    }
}

/// Whether no federation page has a family of this kind and name.
#[tactic(auto, unfolding(crate::specs::Candidates::is_left_out))]
fn is_left_out(kind: Kind, name: &Name) -> bool
    ensures { result ≡ is_left_out kind name.now }
{
    match kind {
        Kind::GaugeHistogram => true,
        Kind::StateSet => name.as_str() == "job" || name.as_str() == "instance",
        _ => false,
    }
}

/// Whether a counter may have this number: it is neither NaN nor negative.
fn is_count_of_events(number: &Number) -> bool
    ensures { result ≡ is_count_of_events number.now }
{
    !(matches!(number, Number::NotANumber) || less(number, &of(0)))
}

/// Whether a reading of a family of this kind stays.
#[tactic(auto, unfolding(crate::specs::Candidates::stays))]
fn stays(kind: Kind, reading: &Reading) -> bool
    ensures { result ≡ stays kind reading.now }
{
    if kind != Kind::Counter {
        return true;
    }
    match &reading.value {
        Value::Plain(number) => is_count_of_events(number),
        _ => true,
    }
}

/// A reading under this key name and kind, with the labels of its target, and without a page timestamp and exemplars.
fn reading_under(
    alloc: Global,
    shown: &Shown,
    sets: &mut TargetSets,
    key: &Name,
    kind: Kind,
    reading: &Reading,
) -> Result<Reading, Memory>
    requires named { HasNames shown.now }
    requires made { AreMadeFor shown.now sets.old.made.items }
    requires free { AreFreeLabels reading.now.key.labels }
    ensures made { OnOk result (AreMadeFor shown.now sets.new.made.items) }
    ensures reading { IfOk result (λ r. r ≡ reading_under shown.now key.now kind reading.now) }
{
    Ok(Reading {
        key: SeriesKey {
            name: key.copy()?,
            kind,
            unit: reading.key.unit.copy()?,
            labels: sets.with_target(alloc, shown, &reading.key.labels)?,
        },
        value: reading.value.copy()?,
        created: reading.created,
        stamp: None,
        exemplars: List::new(alloc),
    })
}

/// The first reading of a family that stays.
fn first_that_stays(family: &Family) -> Option<&Reading>
    ensures { MatchOption result (staying_readings family.now ≡ []) (λ first. IsFirstReading (staying_readings family.now) first.now) }
{
    let readings = family.readings.as_slice();
    for reading in readings {
        if stays(family.kind, reading) {
            return Some(reading);
        }
    }
    None
}

/// The readings of a family that stay, under this key name and kind.
fn readings_under(
    alloc: Global,
    shown: &Shown,
    sets: &mut TargetSets,
    key: &Name,
    kind: Kind,
    family: &Family,
) -> Result<Vec<Reading>, Memory>
    requires named { HasNames shown.now }
    requires made { AreMadeFor shown.now sets.old.made.items }
    requires free { All (λ (r : OneReading). AreFreeLabels r.key.labels) family.now.readings }
    ensures made { OnOk result (AreMadeFor shown.now sets.new.made.items) }
    ensures readings { IfOk result (λ readings. readings.items ≡ map (reading_under shown.now key.now kind) (filter (stays family.now.kind) family.now.readings)) }
{
    let readings = family.readings.as_slice();
    let mut kept = Vec::with_capacity(alloc, readings.len())?;
    for reading in readings {
        if stays(family.kind, reading) {
            kept.push(reading_under(alloc, shown, sets, key, kind, reading)?)?;
        }
    }
    Ok(kept)
}

/// A family whose readings that stay have this key name, as it would stand on the page.
fn named_candidate(
    alloc: Global,
    shown: &Shown,
    sets: &mut TargetSets,
    key: &Name,
    family: &Family,
) -> Result<Candidate, Memory>
    requires named { HasNames shown.now }
    requires made { AreMadeFor shown.now sets.old.made.items }
    requires free { All (λ (r : OneReading). AreFreeLabels r.key.labels) family.now.readings }
    ensures made { OnOk result (AreMadeFor shown.now sets.new.made.items) }
    ensures candidate { IfOk result (λ candidate. candidate ≡ named_candidate shown.now key.now family.now) }
{
    let name = Name::from_str(alloc, federated_name(family.kind, key.as_str()))?;
    let kind = federated_kind(family.kind, key.as_str());
    let readings = readings_under(alloc, shown, sets, key, kind, family)?;
    Ok(Candidate {
        name,
        kind,
        help: family.help.copy()?,
        unit: family.unit.copy()?,
        readings,
    })
}

/// A family as it would stand on the page, where some of its readings stay.
pub(crate) fn candidate_of(
    alloc: Global,
    shown: &Shown,
    sets: &mut TargetSets,
    family: &Family,
) -> Result<Option<Candidate>, Memory>
    requires named { HasNames shown.now }
    requires made { AreMadeFor shown.now sets.old.made.items }
    requires formed { (format : Format) × IsFormedFamily format Scraped family.now }
    ensures made { OnOk result (AreMadeFor shown.now sets.new.made.items) }
    ensures candidate { IfOk result (λ candidate. candidate ≡ candidate_of shown.now family.now) }
{
    if is_left_out(family.kind, &family.name) {
        return Ok(None);
    }
    let Some(first) = first_that_stays(family) else {
        return Ok(None);
    };
    let candidate = named_candidate(alloc, shown, sets, &first.key.name, family)?;
    Ok(Some(candidate))
}
