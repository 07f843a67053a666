//! Label sets with the labels of their target, shared where a page has a set again.
ghost use Rattle.std.specs.Prelude.{◌≡◌, [], Contains, IfOk, IfSome, OnOk};
ghost use Rattle.federation_page.specs.Candidates.{AreFreeLabels, HasNames, with_target};
ghost use Rattle.federation_page.specs.SetsMade.{AreMadeFor};

use crate::targets::with_target;
use label_sets::{LabelSet, Memory};
use page_model::Shown;
use std::alloc::Global;
use std::hash::{FoldHasher, Hasher};

/// How many slots there are.
const SLOTS: usize = 4096;

/// A set of a page, and the same with the labels of the page's target.
#[derive(Drop)]
pub(crate) struct TargetSet {
    own: LabelSet,
    whole: LabelSet,
}

/// The sets that were made for one target.
///
/// The families of a page mostly have the same sets, one for each device, say, so that a set is looked up before it is
/// made. A slot tells where the last set of its hash stands: another set may have the same slot, which costs no more
/// than to make the set once more, whatever sets a page has.
#[derive(Drop)]
pub(crate) struct TargetSets {
    made: Vec<TargetSet>,
    slots: Vec<usize>,
}

/// The slot of a set, which its values tell: the names of labels are mostly the same.
fn slot_of(labels: &LabelSet) -> usize {
    let mut state = FoldHasher::default();
    for label in labels.labels() {
        state.write(label.value.as_bytes());
    }
    (state.finish() % SLOTS as u64) as usize
}

impl TargetSets {
    /// No sets.
    pub(crate) fn new(alloc: Global) -> Result<TargetSets, Memory> {
        Ok(TargetSets {
            made: Vec::new(alloc),
            slots: vec![in alloc; 0; SLOTS]?,
        })
    }

    /// Forgets the sets, before those of another target.
    pub(crate) fn clear(&mut self)
        ensures { self.new.made.items ≡ [] }
    {
        self.made.clear();
    }

    /// The set that was made of these labels, where its slot still tells it.
    fn find(&self, slot: usize, labels: &LabelSet) -> Option<&TargetSet>
        ensures { IfSome result (λ one. Contains self.now.made.items one.now × (one.now.own ≡ labels.now)) }
    {
        let place = *self.slots.get(slot)?;
        let one = self.made.get(place)?;
        if one.own == *labels { Some(one) } else { None }
    }

    /// Keeps a set that was made.
    fn keep(
        &mut self,
        slot: usize,
        shown: &Shown,
        labels: &LabelSet,
        whole: &LabelSet,
    ) -> Result<(), Memory>
        requires made { AreMadeFor shown.now self.old.made.items }
        requires whole { whole.now ≡ with_target shown.now.job shown.now.instance labels.now }
        ensures { OnOk result (AreMadeFor shown.now self.new.made.items) }
    {
        if let Some(place) = self.slots.get_mut(slot) {
            *place = self.made.len();
        }
        self.made.push(TargetSet {
            own: labels.copy()?,
            whole: whole.copy()?,
        })?;
        Ok(())
    }

    /// A page's labels with those of their target.
    pub(crate) fn with_target(
        &mut self,
        alloc: Global,
        shown: &Shown,
        labels: &LabelSet,
    ) -> Result<LabelSet, Memory>
        requires named { HasNames shown.now }
        requires free { AreFreeLabels labels.now }
        requires made { AreMadeFor shown.now self.old.made.items }
        ensures set { IfOk result (λ set. set ≡ with_target shown.now.job shown.now.instance labels.now) }
        ensures made { OnOk result (AreMadeFor shown.now self.new.made.items) }
    {
        let slot = slot_of(labels);
        if let Some(one) = self.find(slot, labels) {
            return one.whole.copy();
        }
        let whole = with_target(alloc, shown, labels)?;
        self.keep(slot, shown, labels, &whole)?;
        Ok(whole)
    }
}
