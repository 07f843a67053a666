//! Sets of labels: what tells the series of one name apart.
ghost use Rattle.std.specs.Prelude.{◌≡◌, ◌==◌, ◌≤◌, ◌<◌, None, [], length, IfOk, IfErr, OnOk};
ghost use Rattle.std.specs.Option.{option_copied};

use crate::label::Label;
use crate::renaming::{exported, has_target_name, rename};
use crate::shared::Shared;
use crate::sorting::sort_by_name;
use crate::text::Text;
use std::alloc::{AllocError, Global};
use std::cmp::Ordering;
use std::hash::{Hash, Hasher};
use std::marker::Model;

/// Why labels make no set.
#[derive(Clone, Copy, Debug, PartialEq, Eq)]
pub enum LabelFault {
    /// There are more labels than allowed.
    TooMany,
    /// The label of this number, counted from 0, is the first whose name an earlier one has.
    Twice(u32),
    /// Want of memory.
    Memory,
}

impl From<AllocError> for LabelFault {
    ghost use Rattle.label_sets.specs.declared.label_set.LabelFault.{LabelFault};

    ghost from_gives = { λ _ fault. fault ≡ LabelFault.Memory };

    fn from(_: AllocError) -> LabelFault {
        LabelFault::Memory
    }
}

/// Labels in byte order of their names, which are distinct; none has an empty value (Prometheus
/// data model, "Metric names and labels").
#[derive(Drop)]
pub struct LabelSet {
    labels: Shared<Label>,
}

const _: () = prove!(std::mem::size_of::<LabelSet>() <= 16);

const _: () = prove!(std::mem::size_of::<Label>() <= 64);

impl Model for LabelSet {
    ghost use Rattle.std.specs.Prelude as spec;
    ghost use Rattle.label_sets.specs.declared.label.Label.{Label as OneLabel};
    ghost use Rattle.label_sets.specs.Sets.{IsLabelSet as IsSet};

    ghost Value = { spec.List OneLabel };

    ghost view = { λ s. s.labels };

    ghost invariant = { λ s. IsSet s.labels };
}

impl LabelSet {
    ghost use Rattle.label_sets.specs.Sets.{IsLabelSet};
    ghost use Rattle.label_sets.specs.Labels.{label_set, label_sets_eq, label_value, renamed, repeated_at, without_label};
    ghost use Rattle.label_sets.specs.Building.{FaultOf};

    /// The set without labels. It takes no memory.
    pub fn empty(_alloc: Global) -> LabelSet
        ensures { result ≡ [] }
    {
        LabelSet {
            labels: Shared::none(),
        }
    }

    /// The set of the labels that have a value, where there are at most `most` in all and no two
    /// have one name, empty values included.
    ///
    /// # Errors
    ///
    /// [`LabelFault::TooMany`] above `most` labels; else [`LabelFault::Twice`] where two have one name; and want of
    /// memory.
    ///
    /// # Example
    ///
    /// ```rust
    /// let mut pairs = Vec::new(alloc);
    /// for (name, value) in &[("b", "1"), ("a", "2"), ("c", "")] {
    ///     let name = Name::from_str(alloc, name)?;
    ///     let value = Text::from_str(alloc, value)?;
    ///     pairs.push(Label { name, value })?;
    /// }
    /// let set = LabelSet::build(alloc, pairs, 64)?;
    /// let first = set.labels().first();
    /// assert!(rt; set.len() == 2 && first.is_some_and(|label| label.name.as_str() == "a"));
    /// ```
    pub fn build(alloc: Global, pairs: Vec<Label>, most: u32) -> Result<LabelSet, LabelFault>
        ensures ok { IfOk result (λ set. set ≡ label_set pairs.items) }
        ensures faultless { OnOk result ((length pairs.items ≤ most) × (repeated_at [] 0 pairs.items ≡ None)) }
        ensures fault { IfErr result (FaultOf pairs.items most) }
    {
        let mut labels = pairs;
        if labels.len() > most as usize {
            return Err(LabelFault::TooMany);
        }
        if let Some(at) = sort_by_name(alloc, &mut labels)? {
            return Err(LabelFault::Twice(at as u32));
        }
        labels.retain(|label| label.has_value());
        let labels = Shared::of(labels)?;
        Ok(LabelSet { labels })
    }

    /// The set of labels that are known to be one, as they are.
    ///
    /// # Errors
    ///
    /// Want of memory.
    pub fn from_sorted(labels: Vec<Label>) -> Result<LabelSet, AllocError>
        requires { IsLabelSet labels.items }
        ensures { IfOk result (λ set. set ≡ labels.items) }
    {
        Ok(LabelSet {
            labels: Shared::of(labels)?,
        })
    }

    /// The labels in byte order of their names.
    pub fn labels(&self) -> &[Label]
        ensures { result.now ≡ self.now }
    {
        self.labels.as_slice()
    }

    /// How many labels there are.
    pub fn len(&self) -> usize
        ensures { result ≡ length self.now }
    {
        self.labels.as_slice().len()
    }

    /// Whether there is no label.
    pub fn is_empty(&self) -> bool
        ensures { result ≡ (length self.now == 0) }
    {
        self.labels.as_slice().is_empty()
    }

    /// For the proof of a caller: the names ascend, and no value is empty. It does nothing.
    pub fn in_order(&self)
        ensures { IsLabelSet self.now }
    {
        let _labels = &self.labels;
    }

    /// The set with other names for the labels that a target's own labels stand beside: `job` and
    /// `instance` get `exported_` before them until no other label has the name. Values stay
    /// (Prometheus configuration, "scrape_config", `honor_labels`).
    ///
    /// # Errors
    ///
    /// Want of memory.
    pub fn renamed(self, alloc: Global) -> Result<LabelSet, AllocError>
        ensures { IfOk result (λ set. set ≡ renamed self) }
    {
        if !has_target_name(self.labels.as_slice()) {
            return Ok(self);
        }
        let job = exported(alloc, self.labels.as_slice(), "job")?;
        let instance = exported(alloc, self.labels.as_slice(), "instance")?;
        let mut labels = copies(alloc, self.labels.as_slice())?;
        rename(&mut labels, b"job", job);
        rename(&mut labels, b"instance", instance);
        labels.sort_unstable();
        let labels = Shared::of(labels)?;
        Ok(LabelSet { labels })
    }

    /// The value of the label of this name, where the set has one.
    pub fn value(&self, name: &[u8]) -> Option<&Text>
        ensures { option_copied result ≡ label_value name.now self.now }
    {
        for label in self.labels.as_slice() {
            if label.name.as_bytes() == name {
                return Some(&label.value);
            }
        }
        None
    }

    /// The set without the label of this name.
    ///
    /// # Errors
    ///
    /// Want of memory.
    pub fn without(&self, alloc: Global, name: &[u8]) -> Result<LabelSet, AllocError>
        ensures { IfOk result (λ set. set ≡ without_label name.now self.now) }
    {
        let mut labels = Vec::with_capacity(alloc, self.labels.as_slice().len())?;
        for label in self.labels.as_slice() {
            if label.name.as_bytes() != name {
                labels.push(label.copy()?)?;
            }
        }
        let labels = Shared::of(labels)?;
        Ok(LabelSet { labels })
    }

    /// Whether this set without the label of this name is the other set. It takes no memory.
    pub fn is_without(&self, name: &[u8], other: &LabelSet) -> bool
        ensures { result ≡ label_sets_eq (without_label name.now self.now) other.now }
    {
        let mut others = other.labels.as_slice();
        for label in self.labels.as_slice() {
            if label.name.as_bytes() == name {
                continue;
            }
            let Some((first, rest)) = others.split_first() else {
                return false;
            };
            if label != first {
                return false;
            }
            others = rest;
        }
        others.is_empty()
    }

    /// The same set, with one owner more.
    ///
    /// # Errors
    ///
    /// Want of memory.
    pub fn copy(&self) -> Result<LabelSet, AllocError>
        ensures { IfOk result (λ set. set ≡ self.now) }
    {
        let labels = self.labels.copy()?;
        Ok(LabelSet { labels })
    }
}

/// Equal labels in memory of their own.
fn copies(alloc: Global, labels: &[Label]) -> Result<Vec<Label>, AllocError>
    ensures { IfOk result (λ copies. copies.items ≡ labels.now) }
{
    let mut copies = Vec::with_capacity(alloc, labels.len())?;
    for label in labels {
        copies.push(label.copy()?)?;
    }
    Ok(copies)
}

impl PartialEq for LabelSet {
    ghost use Rattle.std.specs.Cmp.Lexicographic.{pointwise};
    ghost use Rattle.std.specs.Cmp.Rules.{comparing};
    ghost use Rattle.std.proofs.Common.{rules};

    ghost eq = { pointwise ⟦<Label as PartialEq>⟧.eq };

    ghost laws = { Prim.search (comparing, rules) };

    fn eq(&self, other: &LabelSet) -> bool {
        self.labels.as_slice() == other.labels.as_slice()
    }
}

impl Eq for LabelSet {
    ghost use Rattle.std.specs.Cmp.Rules.{comparing};
    ghost use Rattle.std.proofs.Common.{rules};

    ghost laws = { Prim.search (comparing, rules) };
}

impl PartialOrd for LabelSet {
    ghost use Rattle.std.specs.Ordering.{as_partial_cmp};
    ghost use Rattle.std.specs.Cmp.Lexicographic.{slice_cmp, lists_ties};
    ghost use Rattle.std.specs.Cmp.{partial_order_from_own_ties};
    ghost use Rattle.std.specs.Cmp.Rules.{comparing};
    ghost use Rattle.std.proofs.Common.{rules};
    ghost use Rattle.label_sets.specs.contracts.label.LabelOrd.TheImpl.Laws.{matches_eq-law};

    ghost partial_cmp = { as_partial_cmp (slice_cmp ⟦<Label as Ord>⟧.cmp) };

    ghost laws = { partial_order_from_own_ties (Prim.search (comparing, rules)) (lists_ties ⟦<Label as Ord>⟧.cmp matches_eq-law) };

    fn partial_cmp(&self, other: &LabelSet) -> Option<Ordering> {
        Some(self.cmp(other))
    }
}

impl Ord for LabelSet {
    ghost use Rattle.std.specs.Cmp.Lexicographic.{slice_cmp, lists_ties};
    ghost use Rattle.std.specs.Cmp.Rules.{comparing};
    ghost use Rattle.std.proofs.Common.{rules};
    ghost use Rattle.label_sets.specs.contracts.label.LabelOrd.TheImpl.Laws.{matches_eq-law};

    ghost cmp = { slice_cmp ⟦<Label as Ord>⟧.cmp };

    ghost total = { Prim.search (comparing, rules) };

    ghost matches_partial_cmp = { Prim.search (comparing, rules) };

    ghost matches_eq = { lists_ties ⟦<Label as Ord>⟧.cmp matches_eq-law };

    fn cmp(&self, other: &LabelSet) -> Ordering {
        self.labels.as_slice().cmp(other.labels.as_slice())
    }
}

impl Hash for LabelSet {
    ghost use Rattle.std.specs.Hash as fed;
    ghost use Rattle.std.specs.Hash.{items_Alike};
    ghost use Rattle.label_sets.specs.contracts.label.LabelHash.TheImpl.Laws.{respects_eq-law};

    ghost hash_input = { fed.slice ⟦<Label as Hash>⟧.hash_input };

    ghost respects_eq = { (items_Alike (record { fed = respects_eq-law })).fed };

    fn hash<H: Hasher>(&self, state: &mut H) {
        self.labels.as_slice().hash(state);
    }
}
