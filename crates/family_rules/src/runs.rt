//! Which groups of a family have begun, and which one its nearest sample is of.
ghost use Rattle.std.specs.Prelude.{◌≡◌, false, IfOk};
ghost use Rattle.std.specs.Str.{bytes_eq};
ghost use Rattle.page_model.specs.Owners.{group_of};
ghost use Rattle.family_rules.specs.GroupRuns.{no_runs, is_alone, has_own_runs, group_key, is_of_nearest, goes_back, with_group};

use label_sets::{Kind, LabelSet, Memory, Name};
use packed_keys::{SampleKey, SeenKeys};
use std::alloc::Global;
use std::marker::Model;
use std::mem;

/// The groups of a family that have begun, and the one of its nearest sample (OpenMetrics 1.0, "Metric": the
/// samples of one group stand together).
#[derive(Drop)]
pub struct GroupRuns {
    begun: SeenKeys,
    /// The labels that the samples of the nearest one's group share.
    nearest: Option<LabelSet>,
}

impl Model for GroupRuns {
    ghost use Rattle.family_rules.specs.GroupRuns.{Runs};
    ghost use Rattle.family_rules.specs.GroupRuns.{StartsEmpty};

    ghost Value = { Runs };

    ghost view = { λ r. record { begun = r.begun; nearest = r.nearest } };

    ghost invariant = { λ r. StartsEmpty r.nearest r.begun };
}

/// Whether each sample of this kind has one name and a group of its own, so that its labels are those of its group.
pub fn is_alone(kind: Kind) -> bool
    ensures { result ≡ is_alone kind }
{
    matches!(kind, Kind::Gauge | Kind::Unknown | Kind::Info)
}

/// Whether samples of this kind share groups that make no readings, so that nothing else tells which have begun.
pub fn has_own_runs(kind: Kind) -> bool
    ensures { result ≡ has_own_runs kind }
{
    matches!(kind, Kind::StateSet)
}

/// The labels that a sample of this kind of family shares with those of its group.
///
/// # Errors
///
/// Want of memory.
pub fn group_labels(
    alloc: Global,
    kind: Kind,
    family: &Name,
    labels: &LabelSet,
) -> Result<LabelSet, Memory>
    ensures { IfOk result (λ shared. shared ≡ group_of kind family.now labels.now) }
{
    match kind {
        Kind::Histogram | Kind::GaugeHistogram => labels.without(alloc, b"le"),
        Kind::Summary => labels.without(alloc, b"quantile"),
        Kind::StateSet => labels.without(alloc, family.as_bytes()),
        Kind::Counter | Kind::Gauge | Kind::Info | Kind::Unknown => labels.copy(),
    }
}

impl GroupRuns {
    /// No groups. They take no memory.
    pub fn new(alloc: Global) -> GroupRuns
        ensures { result ≡ no_runs }
    {
        GroupRuns {
            begun: SeenKeys::new(alloc),
            nearest: None,
        }
    }

    /// Forgets all groups. Where there were none, it does nothing.
    pub fn clear(&mut self, alloc: Global)
        ensures { self.new ≡ no_runs }
    {
        if self.nearest.is_some() {
            drop(mem::replace(self, GroupRuns::new(alloc)));
        }
    }

    /// Whether the nearest sample is of the group with these labels.
    fn is_nearest(&self, labels: &LabelSet) -> bool
        ensures { result ≡ is_of_nearest self.now labels.now }
    {
        match &self.nearest {
            Some(nearest) => nearest == labels,
            None => false,
        }
    }

    /// Adds a sample of the group with these labels, and answers whether it goes back to that group. Where it
    /// does, nothing is said of the groups any more.
    ///
    /// # Errors
    ///
    /// Want of memory.
    pub fn enter(&mut self, family: &Name, labels: LabelSet) -> Result<bool, Memory>
        ensures back { IfOk result (λ back. back ≡ goes_back self.old (group_key family.now labels)) }
        ensures entered { IfOk result (λ back. back ≡ false → self.new ≡ with_group self.old (group_key family.now labels)) }
    {
        if self.is_nearest(&labels) {
            drop(labels);
            return Ok(false);
        }
        let key = SampleKey {
            name: family.copy()?,
            labels,
        };
        let new = self.begun.insert(&key)?;
        let follows = self.nearest.is_some();
        let SampleKey { name, labels } = key;
        drop(name);
        drop(mem::replace(&mut self.nearest, Some(labels)));
        Ok(follows && !new)
    }
}
