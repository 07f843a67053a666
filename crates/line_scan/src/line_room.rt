//! What a line is read with: the room for its labels, and the fronts that are known.
ghost use Rattle.std.specs.Prelude.{◌≡◌, IfOk, List};
ghost use Rattle.label_sets.specs.Labels.{label_set};
ghost use Rattle.label_sets.specs.Lists.{when_true};
ghost use Rattle.label_sets.specs.declared.label.Label.{Label as AnyLabel};
ghost use Rattle.page_model.specs.Written.{is_label_list};
ghost use Rattle.line_scan.specs.LineRooms.{HasLabels, HasReadHead};

use crate::head::Head;
use crate::known_fronts::KnownFronts;
use crate::labels::{own_labels, set_of};
use label_sets::{Label, LabelSet, Memory};
use page_model::{Format, Treatment};
use std::alloc::Global;

/// What a line is read with, and its labels: the set that is known of them, or those that were gathered.
#[derive(Drop)]
pub struct LineRoom {
    pub fronts: KnownFronts,
    pub set: Option<LabelSet>,
    /// The room in which labels are gathered.
    pub labels: Vec<Label>,
}

impl LineRoom {
    /// A room without labels.
    pub fn new(alloc: Global, fronts: KnownFronts) -> LineRoom {
        LineRoom {
            fronts,
            set: None,
            labels: Vec::new(alloc),
        }
    }

    /// The label set of the labels that were read, as `take_set` gives it.
    fn set_read(&mut self, alloc: Global, treatment: Treatment) -> Result<Option<LabelSet>, Memory>
        ensures { (labels : List AnyLabel) → HasLabels self.old labels → IfOk result (λ set. set ≡ when_true (is_label_list treatment labels) (label_set labels)) }
    {
        match self.set.take() {
            Some(set) => Ok(Some(set)),
            None => {
                let labels = own_labels(alloc, &mut self.labels)?;
                set_of(alloc, treatment, labels)
            }
        }
    }

    /// The label set of the labels that were read with this head; nothing where two labels have one name or there are
    /// too many. The room is for the next line.
    ///
    /// # Errors
    ///
    /// Want of memory.
    pub fn take_set(
        &mut self,
        alloc: Global,
        treatment: Treatment,
        format: Format,
        head: Head<'_>,
    ) -> Result<Option<LabelSet>, Memory>
        requires { HasReadHead format self.old head }
        ensures { (labels : List AnyLabel) → HasLabels self.old labels → IfOk result (λ set. set ≡ when_true (is_label_list treatment labels) (label_set labels)) }
    {
        let made = self.set_read(alloc, treatment)?;
        if let Some(set) = &made {
            self.fronts.keep(alloc, treatment, format, head, set)?;
        }
        Ok(made)
    }

    /// The fronts for the next page, once all lines of this one were read.
    pub fn into_fronts(self, alloc: Global) -> KnownFronts {
        let mut fronts = self.fronts;
        fronts.turn(alloc);
        fronts
    }
}
