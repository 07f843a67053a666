//! The labels of groups, in the order of the groups.
ghost use Rattle.std.specs.Prelude.{◌≡◌, ◌++◌, ◌∷◌, ◌<◌, [], false, length, IfOk, IfSome, OnOk, OnErr, slice_get, Some};
ghost use Rattle.std.specs.List.{list_any, IsDistinct};
ghost use Rattle.label_sets.specs.Labels.{label_sets_eq};
ghost use Rattle.packed_keys.specs.Packing.{with_set};
ghost use Rattle.sample_groups.specs.Groups.{shared_labels};
ghost use Rattle.sample_groups.specs.LastSeen.{EndsWith};

use crate::shared::insert_shared;
use label_sets::{Kind, LabelSet, Memory};
use packed_keys::{PackedSets, SeenKeys, SeenSets};
use std::alloc::Global;
use std::marker::Model;
use std::mem;

/// How the labels lie.
#[derive(Drop)]
enum Held {
    /// As they came, and shared: nothing was looked for among them.
    Shared(Vec<LabelSet>),
    /// As they came, packed, where nobody shares them.
    Packed(PackedSets),
    /// In a table, so that they are found.
    Seen(SeenSets),
}

/// The labels of groups. They are put in a table once some have to be found among them: those of counters mostly
/// need not be.
#[derive(Drop)]
pub(crate) struct GroupLabels {
    held: Held,
}

impl Model for GroupLabels {
    ghost use Rattle.std.specs.Prelude as spec;
    ghost use Rattle.label_sets.specs.declared.label_set.LabelSet.{LabelSet as Set};
    ghost use Rattle.sample_groups.specs.GroupLabels.{labels_held};

    ghost Value = { spec.List Set };

    ghost view = { λ s. labels_held s.held };
}

/// Puts a set behind the others, which are packed.
fn push_packed(
    sets: &mut PackedSets,
    labels: &LabelSet,
    seen: Option<&SeenKeys>,
) -> Result<(), Memory>
    requires { IfSome seen (λ keys. EndsWith keys.now labels.now) }
    ensures ok { OnOk result (sets.new ≡ sets.old ++ labels.now ∷ []) }
    ensures err { OnErr result (sets.new ≡ sets.old) }
{
    match seen {
        Some(keys) => sets.push_seen(keys, keys.len() - 1),
        None => sets.push(labels),
    }
}

impl GroupLabels {
    /// No labels. They take no memory. `shared` says that the labels that will come live on beside these.
    pub(crate) fn new(alloc: Global, shared: bool) -> GroupLabels
        ensures { result ≡ [] }
    {
        let held = if shared {
            Held::Shared(Vec::new(alloc))
        } else {
            Held::Packed(PackedSets::new(alloc))
        };
        GroupLabels { held }
    }

    /// How many sets there are.
    fn len(&self) -> usize
        ensures { result ≡ length self.now }
    {
        match &self.held {
            Held::Shared(sets) => sets.len(),
            Held::Packed(sets) => sets.len(),
            Held::Seen(sets) => sets.len(),
        }
    }

    /// The set at a place.
    pub(crate) fn set(&self, alloc: Global, at: usize) -> Result<LabelSet, Memory>
        requires { at < length self.now }
        ensures { IfOk result (λ set. slice_get self.now at ≡ Some set) }
    {
        match &self.held {
            Held::Shared(sets) => sets[at].copy(),
            Held::Packed(sets) => sets.set(alloc, at),
            Held::Seen(sets) => sets.set(alloc, at),
        }
    }

    /// Puts a set behind the others, which is none of them. It need not be packed where a key was seen last that
    /// has it.
    pub(crate) fn push(&mut self, labels: &LabelSet, seen: Option<&SeenKeys>) -> Result<(), Memory>
        requires new { list_any (label_sets_eq labels.now) self.old ≡ false }
        requires seen { IfSome seen (λ keys. EndsWith keys.now labels.now) }
        ensures ok { OnOk result (self.new ≡ self.old ++ labels.now ∷ []) }
        ensures err { OnErr result (self.new ≡ self.old) }
    {
        match &mut self.held {
            Held::Shared(sets) => {
                let labels = labels.copy()?;
                sets.push(labels)?;
            }
            Held::Packed(sets) => push_packed(sets, labels, seen)?,
            Held::Seen(sets) => {
                sets.insert(labels)?;
            }
        }
        Ok(())
    }

    /// The sets in a table.
    fn seen(&self, alloc: Global) -> Result<SeenSets, Memory>
        requires { IsDistinct label_sets_eq self.now }
        ensures { IfOk result (λ sets. sets ≡ self.now) }
    {
        let mut sets = SeenSets::new(alloc);
        for at in 0..self.len() {
            let labels = self.set(alloc, at)?;
            sets.insert(&labels)?;
        }
        Ok(sets)
    }

    /// Adds the labels that a sample shares with its group, where they are new, and answers their place.
    pub(crate) fn insert(
        &mut self,
        alloc: Global,
        kind: Kind,
        labels: &LabelSet,
    ) -> Result<usize, Memory>
        requires { IsDistinct label_sets_eq self.old }
        ensures place { IfOk result (λ at. slice_get self.new at ≡ Some (shared_labels kind labels.now)) }
        ensures sets { IfOk result (λ at. self.new ≡ with_set self.old (shared_labels kind labels.now)) }
        ensures err { OnErr result (self.new ≡ self.old) }
    {
        if let Held::Seen(sets) = &mut self.held {
            return insert_shared(sets, kind, labels);
        }
        let mut sets = self.seen(alloc)?;
        match insert_shared(&mut sets, kind, labels) {
            Ok(place) => {
                drop(mem::replace(&mut self.held, Held::Seen(sets)));
                Ok(place)
            }
            Err(fault) => {
                drop(sets);
                Err(fault)
            }
        }
    }
}
