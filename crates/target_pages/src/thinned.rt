//! Pages without what describes the target.
ghost use Rattle.std.specs.Prelude.{◌≡◌, filter, map, IfOk};
ghost use Rattle.target_pages.specs.SeriesPages.{is_series, series_family};
ghost use Rattle.target_pages.specs.Stretches as stretches;

use crate::description::{info_among, info_of, is_info};
use label_sets::{List, Memory, Name, Text};
use page_model::{Family, Page, Reading};
use std::alloc::Global;

/// The readings that do not describe the target.
fn series_readings(alloc: Global, readings: &[Reading]) -> Result<List<Reading>, Memory>
    ensures { IfOk result (λ left. left ≡ filter is_series readings.now) }
{
    let mut left = Vec::with_capacity(alloc, readings.len())?;
    for reading in readings {
        if !is_info(reading) {
            left.push(reading.copy()?)?;
        }
    }
    List::from_vec(left)
}

/// The name, the help and the unit of a family; they are shared.
fn texts_of(family: &Family) -> Result<(Name, Text, Text), Memory>
    ensures name { IfOk result (λ texts. texts.0 ≡ family.now.name) }
    ensures help { IfOk result (λ texts. texts.1 ≡ family.now.help) }
    ensures unit { IfOk result (λ texts. texts.2 ≡ family.now.unit) }
{
    let name = family.name.copy()?;
    let help = family.help.copy()?;
    let unit = family.unit.copy()?;
    Ok((name, help, unit))
}

/// A family with other readings. Its texts are shared.
///
/// # Errors
///
/// Want of memory.
pub fn with_readings(family: &Family, readings: List<Reading>) -> Result<Family, Memory>
    ensures { IfOk result (λ changed. changed ≡ record family.now { readings = readings }) }
{
    match texts_of(family) {
        Ok((name, help, unit)) => Ok(Family {
            name,
            kind: family.kind,
            help,
            unit,
            readings,
        }),
        Err(fault) => {
            drop(readings);
            Err(fault)
        }
    }
}

/// A family without the readings that describe the target. Where none does, they have one owner more.
fn series_family(alloc: Global, family: &Family) -> Result<Family, Memory>
    ensures { IfOk result (λ left. left ≡ series_family family.now) }
{
    let readings = family.readings.as_slice();
    if info_among(readings).is_none() {
        return family.copy();
    }
    let left = series_readings(alloc, readings)?;
    with_readings(family, left)
}

/// Families without the readings that describe the target.
fn series_families(alloc: Global, families: &[Family]) -> Result<List<Family>, Memory>
    ensures { IfOk result (λ left. left ≡ map series_family families.now) }
{
    let mut left = Vec::with_capacity(alloc, families.len())?;
    for family in families {
        left.push(series_family(alloc, family)?)?;
    }
    List::from_vec(left)
}

/// A page without what describes the target. Where nothing does, it is the same page, with one owner more.
pub(crate) fn without_info(alloc: Global, page: &Page) -> Result<Page, Memory>
    ensures { IfOk result (λ left. left ≡ stretches.without_info page.now) }
{
    if info_of(page).is_none() {
        return page.copy();
    }
    let families = series_families(alloc, page.families().as_slice())?;
    Ok(Page::new(families, page.samples()))
}
