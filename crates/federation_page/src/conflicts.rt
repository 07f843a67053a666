//! Which of many families found one of the page (OpenMetrics 1.0, "MetricFamily"): of two that clash the first stays.
ghost use Rattle.std.specs.Prelude.{◌≡◌, ◌++◌, [], ◌∷◌, map, false, Some, IfOk, OnOk, slice_get};
ghost use Rattle.std.specs.List.{list_any};
ghost use Rattle.page_model.specs.declared.format.Format.TheVariants.{OpenMetrics};
ghost use Rattle.page_model.specs.Suffixes.{suffixes};
ghost use Rattle.page_model.specs.SuffixNames.{suffix_bytes};
ghost use Rattle.open_writing.specs.FamilyKeys.{family_key, sample_names};
ghost use Rattle.federation_page.specs.Conflicts.{meets, sorted_by_name, with_candidate};
ghost use Rattle.federation_page.specs.Founding.{AreFounders, AreNamesOfBoth, is_name_among};

use crate::candidates::Candidate;
use byte_table::ByteTable;
use label_sets::{List, Memory, Name};
use open_writing::open_suffixes;
use page_model::{Family, Suffix};
use std::alloc::Global;

/// A sample name: that of the family and a suffix.
fn sample_name(alloc: Global, family: &Name, suffix: Suffix) -> Result<Vec<u8>, Memory>
    ensures { IfOk result (λ name. name.items ≡ family.now ++ suffix_bytes suffix) }
{
    let suffix = suffix.as_str().as_bytes();
    let mut name = Vec::with_capacity(alloc, family.len().saturating_add(suffix.len()))?;
    name.extend_from_slice(family.as_bytes())?;
    name.extend_from_slice(suffix)?;
    Ok(name)
}

/// Adds the sample names that the candidate's kind allows.
fn add_sample_names(
    alloc: Global,
    names: &mut ByteTable,
    candidate: &Candidate,
) -> Result<(), Memory>
    ensures { OnOk result (AreNamesOfBoth names.old (sample_names (family_key candidate.now)) names.new) }
{
    let suffixes = open_suffixes(candidate.kind());
    for suffix in suffixes {
        let name = sample_name(alloc, candidate.name(), *suffix)?;
        names.insert(name.as_slice())?;
    }
    Ok(())
}

/// Families that found one of the page, in their order, with their names and those of their samples.
#[derive(Drop)]
pub(crate) struct Founders {
    pub(crate) names: ByteTable,
    pub(crate) sample_names: ByteTable,
    pub(crate) families: Vec<Candidate>,
}

impl Founders {
    /// No families.
    pub(crate) fn new(alloc: Global) -> Founders
        ensures kept { AreFounders result }
        ensures none { result.families.items ≡ [] }
    {
        Founders {
            names: ByteTable::new(alloc),
            sample_names: ByteTable::new(alloc),
            families: Vec::new(alloc),
        }
    }

    /// Whether a sample name that the candidate's kind allows is one of a family that is there.
    fn shares_sample_name(&self, candidate: &Candidate) -> Result<bool, Memory>
        ensures { IfOk result (λ shares. shares ≡ list_any (is_name_among self.now.sample_names) (sample_names (family_key candidate.now))) }
    {
        let alloc = *self.families.allocator();
        let suffixes = open_suffixes(candidate.kind());
        for suffix in suffixes {
            let name = sample_name(alloc, candidate.name(), *suffix)?;
            if self.sample_names.find(name.as_slice()).is_some() {
                return Ok(true);
            }
        }
        Ok(false)
    }

    /// Adds a family that clashes with none.
    fn found(&mut self, candidate: Candidate) -> Result<(), Memory>
        requires kept { AreFounders self.old }
        requires free { meets self.old.families.items (family_key candidate) ≡ false }
        ensures kept { OnOk result (AreFounders self.new) }
        ensures founded { OnOk result (self.new.families.items ≡ self.old.families.items ++ candidate ∷ []) }
    {
        let alloc = *self.families.allocator();
        add_sample_names(alloc, &mut self.sample_names, &candidate)?;
        self.names.insert(candidate.name().as_bytes())?;
        self.families.push(candidate)?;
        Ok(())
    }

    /// Adds a family of a name that none has, unless it shares a sample name, with room for so many readings.
    fn take_new(&mut self, candidate: Candidate, room: usize) -> Result<(), Memory>
        requires kept { AreFounders self.old }
        requires new { is_name_among self.old.names candidate.name ≡ false }
        ensures kept { OnOk result (AreFounders self.new) }
        ensures taken { OnOk result (self.new.families.items ≡ with_candidate self.old.families.items candidate) }
    {
        if self.shares_sample_name(&candidate)? {
            drop(candidate);
            return Ok(());
        }
        let mut candidate = candidate;
        candidate.make_room(room)?;
        self.found(candidate)?;
        Ok(())
    }

    /// Adds the readings of a candidate to the family of its name, where they are one.
    fn join(&mut self, place: usize, candidate: Candidate) -> Result<(), Memory>
        requires kept { AreFounders self.old }
        requires there { slice_get self.old.names place ≡ Some candidate.name }
        ensures kept { OnOk result (AreFounders self.new) }
        ensures taken { OnOk result (self.new.families.items ≡ with_candidate self.old.families.items candidate) }
    {
        self.families[place].join(candidate)?;
        Ok(())
    }

    /// Adds a family, or its readings to the one that it is one with, unless it clashes. A family that is new gets room
    /// for so many readings.
    pub(crate) fn take(&mut self, candidate: Candidate, room: usize) -> Result<(), Memory>
        requires kept { AreFounders self.old }
        ensures kept { OnOk result (AreFounders self.new) }
        ensures taken { OnOk result (self.new.families.items ≡ with_candidate self.old.families.items candidate) }
    {
        match self.names.find(candidate.name().as_bytes()) {
            Some(place) => self.join(place, candidate),
            None => self.take_new(candidate, room),
        }
    }

    /// The families in byte order of their names.
    pub(crate) fn into_families(self) -> Result<List<Family>, Memory>
        requires { AreFounders self }
        ensures { IfOk result (λ families. families ≡ sorted_by_name family_key self.families.items) }
    {
        let mut candidates = self.families;
        candidates.sort_unstable_by(|a, b| a.by_name(b));
        families_of(candidates)
    }
}

/// Candidates as families.
fn families_of(candidates: Vec<Candidate>) -> Result<List<Family>, Memory>
    ensures { IfOk result (λ families. families ≡ candidates.items) }
{
    let mut families = Vec::with_capacity(*candidates.allocator(), candidates.len())?;
    for candidate in candidates {
        families.push(candidate.into_family()?)?;
    }
    List::from_vec(families)
}
