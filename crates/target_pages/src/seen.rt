//! What is seen of an event before its tree is made.
ghost use Rattle.std.specs.Prelude.{◌≡◌, [], IfOk};
ghost use Rattle.label_sets.specs.Labels.{label_sets_eq};
ghost use Rattle.page_model.specs.Presence.{page_of_outcome};
ghost use Rattle.target_pages.specs.Outcomes.{IsSeen, up_of};
ghost use Rattle.target_pages.specs.Stretches as spec;
ghost use Rattle.target_pages.specs.Thinned.{shown_page};

use crate::description::attributes_after;
use crate::last_page::LastPage;
use crate::thinned::without_info;
use label_sets::{LabelSet, Memory};
use page_model::{Outcome, Page};
use std::alloc::Global;

/// What is seen of an event.
#[derive(Drop)]
pub struct Seen {
    /// Whether its scrape gave a page, as 1 or 0.
    pub up: u64,
    /// The attributes of the target behind it.
    pub resource: LabelSet,
    /// Its page without what describes the target, which is empty where the scrape failed.
    pub series: Page,
    /// What is kept of its page.
    pub last: LastPage,
}

/// Whether a scrape gave a page, as 1 or 0, and its page, which is empty where it failed.
fn up_and_page(alloc: Global, outcome: Outcome) -> (u64, Page)
    ensures up { result.0 ≡ up_of outcome }
    ensures page { result.1 ≡ page_of_outcome outcome }
{
    match outcome {
        Outcome::Page(page) => (1, page),
        Outcome::Failed(_) => (0, Page::empty(alloc)),
    }
}

/// What is kept of a page, and the page without what describes the target.
fn kept_pages(alloc: Global, page: &Page) -> Result<(LastPage, Page), Memory>
    ensures last { IfOk result (λ pages. pages.0 ≡ shown_page page.now) }
    ensures series { IfOk result (λ pages. pages.1 ≡ spec.without_info page.now) }
{
    let last = LastPage::of(alloc, page)?;
    let series = without_info(alloc, page)?;
    Ok((last, series))
}

impl Seen {
    /// What is seen of an outcome, beside the attributes that its target had before.
    ///
    /// # Errors
    ///
    /// Want of memory.
    pub fn of(alloc: Global, before: &LabelSet, outcome: Outcome) -> Result<Seen, Memory>
        ensures { IfOk result (λ seen. IsSeen before.now outcome seen.up seen.resource seen.series seen.last) }
    {
        let resource = match attributes_after(alloc, before, &outcome) {
            Ok(resource) => resource,
            Err(fault) => {
                drop(outcome);
                return Err(fault);
            }
        };
        let (up, page) = up_and_page(alloc, outcome);
        let pages = kept_pages(alloc, &page);
        drop(page);
        let (last, series) = pages?;
        Ok(Seen {
            up,
            resource,
            series,
            last,
        })
    }

    /// What is seen of a first outcome: before it there are no attributes.
    ///
    /// # Errors
    ///
    /// Want of memory.
    pub fn first(alloc: Global, outcome: Outcome) -> Result<Seen, Memory>
        ensures { IfOk result (λ seen. IsSeen [] outcome seen.up seen.resource seen.series seen.last) }
    {
        let none = LabelSet::empty(alloc);
        let seen = Seen::of(alloc, &none, outcome);
        drop(none);
        seen
    }

    /// Whether the attributes are those that the target had before.
    pub fn leaves(&self, before: &LabelSet) -> bool
        ensures { result ≡ label_sets_eq before.now self.now.resource }
    {
        before == &self.resource
    }
}
