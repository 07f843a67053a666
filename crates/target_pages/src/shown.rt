//! Pages as they are shown: without their exemplars.
ghost use Rattle.std.specs.Prelude.{◌≡◌, map, IfOk};
ghost use Rattle.std.specs.List.{list_any};
ghost use Rattle.target_pages.specs.Thinned as spec;

use crate::thinned::with_readings;
use label_sets::{List, Memory};
use page_model::{Family, Page, Reading};
use std::alloc::Global;

/// Whether a reading has exemplars.
fn has_exemplars(reading: &Reading) -> bool
    ensures { result ≡ spec.has_exemplars reading.now }
{
    !reading.exemplars.is_empty()
}

/// Whether some of a family's readings has exemplars.
fn family_has_exemplars(family: &Family) -> bool
    ensures { result ≡ spec.family_has_exemplars family.now }
{
    family
        .readings
        .as_slice()
        .iter()
        .any(|reading| has_exemplars(reading))
}

/// Whether some reading of these families has exemplars.
fn some_have_exemplars(families: &[Family]) -> bool
    ensures { result ≡ list_any spec.family_has_exemplars families.now }
{
    families.iter().any(|family| family_has_exemplars(family))
}

/// The reading without its exemplars.
fn bare_reading(alloc: Global, reading: &Reading) -> Result<Reading, Memory>
    ensures { IfOk result (λ bare. bare ≡ spec.bare_of_exemplars reading.now) }
{
    let key = reading.key.copy()?;
    let value = reading.value.copy()?;
    Ok(Reading {
        key,
        value,
        created: reading.created,
        stamp: reading.stamp,
        exemplars: List::new(alloc),
    })
}

/// The readings without their exemplars.
fn bare_readings(alloc: Global, readings: &[Reading]) -> Result<List<Reading>, Memory>
    ensures { IfOk result (λ bare. bare ≡ map spec.bare_of_exemplars readings.now) }
{
    let mut bare = Vec::with_capacity(alloc, readings.len())?;
    for reading in readings {
        bare.push(bare_reading(alloc, reading)?)?;
    }
    List::from_vec(bare)
}

/// The family without exemplars. Where it has none, its readings have one owner more.
fn bare_family(alloc: Global, family: &Family) -> Result<Family, Memory>
    ensures { IfOk result (λ bare. bare ≡ spec.bare_family family.now) }
{
    if !family_has_exemplars(family) {
        return family.copy();
    }
    let readings = bare_readings(alloc, family.readings.as_slice())?;
    with_readings(family, readings)
}

/// The families without exemplars.
fn bare_families(alloc: Global, families: &[Family]) -> Result<List<Family>, Memory>
    ensures { IfOk result (λ bare. bare ≡ map spec.bare_family families.now) }
{
    let mut bare = Vec::with_capacity(alloc, families.len())?;
    for family in families {
        bare.push(bare_family(alloc, family)?)?;
    }
    List::from_vec(bare)
}

/// The page without its exemplars.
#[tactic(auto, unfolding(crate::specs::Thinned::without_exemplars))]
fn bare_page(alloc: Global, page: &Page) -> Result<Page, Memory>
    ensures { IfOk result (λ bare. bare ≡ spec.without_exemplars page.now) }
{
    let families = bare_families(alloc, page.families().as_slice())?;
    Ok(Page::new(families, page.samples()))
}

/// A page as it is shown: without its exemplars, and without the families that have no reading. Where it has neither,
/// it is the same page, whose families have one owner more.
pub(crate) fn shown_page(alloc: Global, page: &Page) -> Result<Page, Memory>
    ensures { IfOk result (λ shown. shown ≡ spec.shown_page page.now) }
{
    if !some_have_exemplars(page.families().as_slice()) {
        return page.filled(alloc);
    }
    let bare = bare_page(alloc, page)?;
    bare.filled(alloc)
}
