//! Pages without the families of which nothing was read.
ghost use Rattle.std.specs.Prelude.{◌≡◌, count_by, IfOk};
ghost use Rattle.page_model.specs.Presence.{filled_families, filled_page, has_readings};

use crate::page::{Family, Page};
use label_sets::{List, Memory};
use std::alloc::Global;

/// Whether a family has readings.
fn has_readings(family: &Family) -> bool
    ensures { result ≡ has_readings family.now }
{
    !family.readings.is_empty()
}

/// How many of the families have readings.
fn count_filled(families: &[Family]) -> usize
    ensures { result ≡ count_by has_readings families.now }
{
    let mut count = 0;
    for family in families {
        if has_readings(family) {
            count += 1;
        }
    }
    count
}

/// The families that have readings, of which there are `count`.
fn filled_families(alloc: Global, families: &[Family], count: usize) -> Result<List<Family>, Memory>
    ensures { IfOk result (λ filled. filled ≡ filled_families families.now) }
{
    let mut filled = Vec::with_capacity(alloc, count)?;
    for family in families {
        if has_readings(family) {
            filled.push(family.copy()?)?;
        }
    }
    List::from_vec(filled)
}

impl Page {
    /// The page without the families that have no reading, as one with a HELP line alone. Where each has one it is the
    /// same page, whose families have one owner more; else what is left is copied, by one owner more of each list and
    /// long text. It has the readings and the number of sample lines of the page.
    ///
    /// # Errors
    ///
    /// Want of memory.
    pub fn filled(&self, alloc: Global) -> Result<Page, Memory>
        ensures { IfOk result (λ page. page ≡ filled_page self.now) }
    {
        let families = self.families().as_slice();
        let count = count_filled(families);
        if count == families.len() {
            return self.copy();
        }
        let filled = filled_families(alloc, families, count)?;
        Ok(Page::new(filled, self.samples()))
    }
}
