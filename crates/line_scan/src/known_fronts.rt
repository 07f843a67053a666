//! The fronts of the sample lines of a page, by which the next page of the same target is read: most of its lines begin
//! as those did, in the same order.
ghost use Rattle.std.specs.Prelude.{◌≡◌, List, true, IfOk, IfSome};
ghost use Rattle.label_sets.specs.Labels.{label_set};
ghost use Rattle.label_sets.specs.declared.label.Label.{Label as AnyLabel};
ghost use Rattle.page_model.specs.Written.{is_label_list};
ghost use Rattle.line_scan.specs.LineHeads.{IsFrontOf, IsKnownIn};

use crate::head::Head;
use crate::known_front::KnownFront;
use label_sets::{LabelSet, Memory};
use page_model::{Format, Treatment};
use std::alloc::Global;
use std::marker::Model;
use std::mem;

/// How many fronts from the place on a line is looked for among, and how many at most once lines in a row had none there.
const FEWEST_FRONTS: usize = 4;

const MOST_FRONTS: usize = 64;

/// After how many lines in a row that had no front a line is held against the front at the place alone.
const PATIENCE: usize = 8;

/// Where more than one line in so many had no front, the fronts of the next page are kept anew.
const FEW: usize = 32;

/// The fronts of a page, and where among them the next line is looked for. They only save time and memory: the head that
/// is found is the one that the line has, so contracts see nothing of them.
#[derive(Drop)]
pub struct KnownFronts {
    lines: Vec<KnownFront>,
    /// The front behind the one that was found last.
    place: usize,
    /// How many lines in a row had no front here.
    misses: usize,
    /// How many lines of this page had none.
    missed: usize,
    /// The fronts of this page, where they are kept for the next one.
    fresh: Option<Vec<KnownFront>>,
}

impl Model for KnownFronts {
    ghost use Rattle.std.specs.Prelude.{⊤};

    ghost Value = { ⊤ };

    ghost view = { λ _. tt };
}

impl KnownFronts {
    /// No fronts, and none are kept.
    pub fn none(alloc: Global) -> KnownFronts {
        KnownFronts {
            lines: Vec::new(alloc),
            place: 0,
            misses: 0,
            missed: 0,
            fresh: None,
        }
    }

    /// No fronts; those of the page that is read next are kept.
    pub fn new(alloc: Global) -> KnownFronts {
        let mut fronts = KnownFronts::none(alloc);
        fronts.fresh = Some(Vec::new(alloc));
        fronts
    }

    /// How many fronts a line is held against.
    fn near(&self) -> usize {
        if self.misses >= PATIENCE {
            return 1;
        }
        (FEWEST_FRONTS << self.misses).min(MOST_FRONTS)
    }

    /// The head of a line of this format that begins with one of the fronts near the place, and the label set that its
    /// labels make, which has one owner more.
    ///
    /// # Errors
    ///
    /// Want of memory.
    pub(crate) fn find<'a>(
        &mut self,
        format: Format,
        bytes: &'a [u8],
    ) -> Result<Option<(Head<'a>, LabelSet)>, Memory>
        ensures { IfOk result (λ found. IfSome found (λ f. IsKnownIn format bytes.now f.1 f.0)) }
    {
        if self.lines.is_empty() {
            return Ok(None);
        }
        let end = self.lines.len().min(self.place.saturating_add(self.near()));
        for at in self.place..end {
            if let Some(head) = self.lines[at].head_in(format, bytes) {
                let set = self.lines[at].copied_set()?;
                self.place = at + 1;
                self.misses = 0;
                return Ok(Some((head, set)));
            }
        }
        self.misses = self.misses.saturating_add(1);
        self.missed = self.missed.saturating_add(1);
        Ok(None)
    }

    /// Keeps the front of a head, whose labels make this set, where those of this page are kept.
    ///
    /// # Errors
    ///
    /// Want of memory.
    pub(crate) fn keep(
        &mut self,
        alloc: Global,
        treatment: Treatment,
        format: Format,
        head: Head<'_>,
        set: &LabelSet,
    ) -> Result<(), Memory>
        requires { (labels : List AnyLabel) × IsFrontOf format labels head × (is_label_list treatment labels ≡ true) × (set.now ≡ label_set labels) }
    {
        let Some(fresh) = &mut self.fresh else {
            return Ok(());
        };
        if treatment == Treatment::Written {
            return Ok(());
        }
        if let Some(front) = KnownFront::of(alloc, format, head, set)? {
            fresh.push(front)?;
        }
        Ok(())
    }

    /// Goes on to the next page, once all lines of this one were read.
    pub fn turn(&mut self, alloc: Global) {
        if let Some(fresh) = mem::replace(&mut self.fresh, None) {
            self.lines = fresh;
        }
        // Where there are no fronts no line was missed.
        if self.lines.is_empty() || self.missed > self.lines.len() / FEW {
            self.fresh = Some(Vec::new(alloc));
        }
        self.place = 0;
        self.misses = 0;
        self.missed = 0;
    }
}
