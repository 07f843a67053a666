//! What is kept of the last page of a target.
ghost use Rattle.std.specs.Prelude.{◌≡◌, IfOk};
ghost use Rattle.page_model.specs.Presence.{empty_page};
ghost use Rattle.target_pages.specs.Stretches as stretches;
ghost use Rattle.target_pages.specs.Thinned as thinned;

use crate::shown::shown_page;
use crate::thinned::without_info;
use label_sets::Memory;
use page_model::Page;
use std::alloc::Global;
use std::marker::Model;

/// The last page as it is shown, and the same without what describes the target.
#[derive(Drop)]
pub struct LastPage {
    page: Page,
    /// Where nothing describes the target its families are those of the page, with one owner more.
    series: Page,
}

impl Model for LastPage {
    ghost use Rattle.std.specs.Prelude.{◌≡◌};
    ghost use Rattle.page_model.specs.PageValues.{PageValue};
    ghost use Rattle.target_pages.specs.Stretches.{without_info};

    ghost Value = { PageValue };

    ghost view = { λ p. p.page };

    ghost invariant = { λ p. p.series ≡ without_info p.page };
}

impl LastPage {
    /// No page. It takes no memory.
    pub fn none(alloc: Global) -> LastPage
        ensures { result ≡ empty_page }
    {
        LastPage {
            page: Page::empty(alloc),
            series: Page::empty(alloc),
        }
    }

    /// What is kept of a page.
    pub(crate) fn of(alloc: Global, page: &Page) -> Result<LastPage, Memory>
        ensures { IfOk result (λ last. last ≡ thinned.shown_page page.now) }
    {
        let page = shown_page(alloc, page)?;
        let series = without_info(alloc, &page)?;
        Ok(LastPage { page, series })
    }

    /// The page as it is shown.
    pub fn page(&self) -> &Page
        ensures { result.now ≡ self.now }
    {
        &self.page
    }

    /// The page without what describes the target.
    pub fn series(&self) -> &Page
        ensures { result.now ≡ stretches.without_info self.now }
    {
        &self.series
    }
}
