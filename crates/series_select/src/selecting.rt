//! The page with the readings that selectors match (Prometheus, "Federation").
ghost use Rattle.std.specs.Prelude.{◌≡◌, ◌++◌, ◌∷◌, ◌≤◌, [], filter, length, IfOk, OnOk};
ghost use Rattle.page_model.specs.Presence.{filled_families};
ghost use Rattle.std.specs.List.{prefix_len};
ghost use Rattle.open_writing.specs.OpenForms.{IsOpenForm};
ghost use Rattle.series_select.specs.Selection.{selected_families, selected_page};
ghost use Rattle.series_select.specs.SelectionSteps.{is_left, names_hold, selectors_behind};

use crate::matching::{names_hold, some_labels_hold};
use crate::selector::Selector;
use label_sets::{List, Memory};
use open_writing::page_of_families;
use page_model::{Family, Page, Reading};
use std::alloc::{AllocError, Global};

/// The most sample lines of a page from which readings are selected: what is written of it has at most twice as many,
/// which 32 bits count.
const MOST_COUNTED: u32 = u32::MAX / 2;

/// Holds the selectors that may match readings of a family, by its names, in place of those held before.
fn hold_named<'a>(
    named: &mut Vec<&'a Selector>,
    list: &'a [Selector],
    family: &Family,
) -> Result<(), Memory>
    ensures { OnOk result (selectors_behind named.new.items ≡ filter (names_hold family.now) list.entry.now) }
{
    named.clear();
    for selector in list {
        if names_hold(selector, family) {
            named.push(selector)?;
        }
    }
    Ok(())
}

/// How many readings at the front some of the selectors matches.
fn front_len(named: &[&Selector], readings: &[Reading]) -> usize
    ensures within { result ≤ length readings.now }
    ensures count { result ≡ prefix_len (is_left (selectors_behind named.now)) readings.now }
{
    let mut count = 0;
    while count < readings.len() && some_labels_hold(named, &readings[count]) {
        count += 1;
    }
    count
}

/// Puts readings behind others.
fn put_all(kept: &mut Vec<Reading>, readings: &[Reading]) -> Result<(), Memory>
    ensures { OnOk result (kept.new.items ≡ kept.old.items ++ readings.now) }
{
    for reading in readings {
        kept.push(reading.copy()?)?;
    }
    Ok(())
}

/// Puts the readings that some of the selectors matches behind others.
fn put_some(
    kept: &mut Vec<Reading>,
    named: &[&Selector],
    readings: &[Reading],
) -> Result<(), Memory>
    ensures { OnOk result (kept.new.items ≡ kept.old.items ++ filter (is_left (selectors_behind named.now)) readings.now) }
{
    for reading in readings {
        if some_labels_hold(named, reading) {
            kept.push(reading.copy()?)?;
        }
    }
    Ok(())
}

/// The readings that some of the selectors matches. Where all are, their list has one owner more.
fn readings_left(
    alloc: Global,
    named: &[&Selector],
    readings: &List<Reading>,
) -> Result<List<Reading>, Memory>
    ensures { IfOk result (λ left. left ≡ filter (is_left (selectors_behind named.now)) readings.now) }
{
    let all = readings.as_slice();
    let (front, behind) = all.split_at(front_len(named, all));
    let Some((_, rest)) = behind.split_first() else {
        return readings.copy();
    };
    let mut kept = Vec::new(alloc);
    put_all(&mut kept, front)?;
    put_some(&mut kept, named, rest)?;
    List::from_vec(kept)
}

/// A family with these readings.
fn with_readings(family: &Family, readings: List<Reading>) -> Result<Family, Memory>
    ensures { IfOk result (λ thinned. thinned ≡ record family.now { readings = readings }) }
{
    let name = family.name.copy()?;
    let help = family.help.copy()?;
    let unit = family.unit.copy()?;
    Ok(Family {
        name,
        kind: family.kind,
        help,
        unit,
        readings,
    })
}

/// Puts a family with some of its readings behind others, where there are some.
fn put_family(
    selected: &mut Vec<Family>,
    family: &Family,
    readings: List<Reading>,
) -> Result<(), Memory>
    ensures { OnOk result (selected.new.items ≡ selected.old.items ++ filled_families (record family.now { readings = readings } ∷ [])) }
{
    if readings.is_empty() {
        return Ok(());
    }
    let family = with_readings(family, readings)?;
    selected.push(family)?;
    Ok(())
}

/// Puts what is selected of a family behind other families. Where no selector names it, none of its readings is looked at.
fn select_family<'a>(
    selected: &mut Vec<Family>,
    named: &mut Vec<&'a Selector>,
    list: &'a [Selector],
    family: &Family,
) -> Result<(), Memory>
    ensures { OnOk result (selected.new.items ≡ selected.old.items ++ selected_families list.entry.now (family.now ∷ [])) }
{
    hold_named(named, list, family)?;
    let named = named.as_slice();
    if named.is_empty() {
        return Ok(());
    }
    let alloc = *selected.allocator();
    let readings = readings_left(alloc, named, &family.readings)?;
    put_family(selected, family, readings)
}

/// The families with the readings that are selected, without those that have none left.
fn families_left(
    alloc: Global,
    list: &[Selector],
    families: &[Family],
) -> Result<List<Family>, Memory>
    ensures { IfOk result (λ left. left ≡ selected_families list.now families.now) }
{
    let mut selected = Vec::new(alloc);
    let mut named = Vec::new(alloc);
    for family in families {
        select_family(&mut selected, &mut named, list, family)?;
    }
    List::from_vec(selected)
}

/// The page with the readings that some selector matches, in their order, without the families that have none left; the
/// whole page where there is no selector. A reading is kept or left whole, and those that are kept are shared, not
/// copied. `page` is in OpenMetrics form, and so is the selected page.
///
/// # Errors
///
/// Want of memory, of which a page of 2^31 samples or more is told too.
///
/// # Example
///
/// ```rust
/// // `page` was read of `# TYPE x gauge`, `x{job="a"} 1`, `x{job="b"} 2`, `y 3` and `# EOF`.
/// let list = query(alloc, b"match[]={job=\"b\"}")?;
/// let selected = select(alloc, &page, &list)?;
/// let mut out = Vec::new(alloc);
/// write(&selected, &mut out)?;
/// assert_eq!(rt; out.as_slice(), b"# TYPE x gauge\nx{job=\"b\"} 2\n# EOF\n".as_slice());
/// ```
pub fn select(alloc: Global, page: &Page, list: &List<Selector>) -> Result<Page, Memory>
    requires { IsOpenForm page.now }
    ensures page { IfOk result (λ selected. selected ≡ selected_page list.now page.now) }
    ensures form { IfOk result (λ selected. IsOpenForm selected) }
{
    if list.is_empty() {
        return page.copy();
    }
    if page.samples() > MOST_COUNTED {
        return Err(AllocError);
    }
    let families = families_left(alloc, list.as_slice(), page.families().as_slice())?;
    Ok(page_of_families(families))
}
