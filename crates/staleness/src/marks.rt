//! The series of a page as it is kept without its values, and those of them that the next page lacks.
ghost use Rattle.std.specs.Prelude.{◌≡◌, ◌++◌, map, filter, IfOk, OnOk};
ghost use Rattle.std.specs.Option.{option_copied};
ghost use Rattle.page_model.specs.declared.page.Reading.{Reading as OneReading};
ghost use Rattle.page_model.specs.Presence as presence;
ghost use Rattle.staleness.specs.declared.marks.Mark.{Mark as OneMark};
ghost use Rattle.staleness.specs.Marks as spec;
ghost use Rattle.staleness.specs.Vanished.{page_or_empty};

use label_sets::{List, Memory, SeriesKey};
use packed_keys::SeriesPlaces;
use page_model::{Page, Reading};
use std::alloc::Global;

/// A series of the last page, which gets a marker where the next page lacks it.
#[derive(Drop)]
pub struct Mark {
    pub key: SeriesKey,
    /// Whether the page gave it a time of its own that counts: then it gets no marker.
    pub own: bool,
}

/// Puts the keys of readings behind others.
fn push_keys(keys: &mut Vec<SeriesKey>, readings: &[Reading]) -> Result<(), Memory>
    ensures { OnOk result (keys.new.items ≡ keys.old.items ++ map (λ (r : OneReading). r.key) readings.now) }
{
    for reading in readings {
        keys.push(reading.key.copy()?)?;
    }
    Ok(())
}

/// The keys of a page, in page order.
fn page_keys(alloc: Global, page: &Page) -> Result<List<SeriesKey>, Memory>
    ensures { IfOk result (λ keys. keys ≡ presence.keys_of page.now) }
{
    let families = page.families().as_slice();
    let mut keys = Vec::new(alloc);
    for family in families {
        push_keys(&mut keys, family.readings.as_slice())?;
    }
    List::from_vec(keys)
}

/// The keys of a page, or none.
fn keys_of_some(alloc: Global, page: Option<&Page>) -> Result<List<SeriesKey>, Memory>
    ensures { IfOk result (λ keys. keys ≡ presence.keys_of (page_or_empty (option_copied page.entry))) }
{
    match page {
        Some(page) => page_keys(alloc, page),
        None => Ok(List::new(alloc)),
    }
}

/// Whether a mark has no time of its own, and its series is not among others.
#[tactic(auto, unfolding(crate::specs::Marks::is_unread))]
fn is_unread(alloc: Global, others: &mut SeriesPlaces, mark: &Mark) -> Result<bool, Memory>
    ensures unread { IfOk result (λ unread. unread ≡ spec.is_unread others.old mark.now) }
    ensures others { others.new ≡ others.old }
{
    if mark.own {
        return Ok(false);
    }
    Ok(others.find(alloc, &mark.key)?.is_none())
}

/// The keys of the marks without times of their own whose series are not among others.
fn unread(
    alloc: Global,
    marks: &[Mark],
    others: &mut SeriesPlaces,
) -> Result<Vec<SeriesKey>, Memory>
    ensures { IfOk result (λ keys. keys.items ≡ map (λ (m : OneMark). m.key) (filter (spec.is_unread others.old) marks.now)) }
{
    let mut keys = Vec::new(alloc);
    for mark in marks {
        if is_unread(alloc, others, mark)? {
            keys.push(mark.key.copy()?)?;
        }
    }
    Ok(keys)
}

/// The series of marks that the page now lacks, in their order, but for those with times of their own; all of these
/// where there is no page now, since the scrape failed. Of the marks of a page they are those that [`vanished`] tells
/// of the page itself.
///
/// # Errors
///
/// Want of memory.
///
/// [`vanished`]: crate::vanished
pub fn vanished_marks(
    alloc: Global,
    before: &List<Mark>,
    now: Option<&Page>,
) -> Result<List<SeriesKey>, Memory>
    ensures { IfOk result (λ keys. keys ≡ spec.marks_gone before.now (page_or_empty (option_copied now.entry))) }
{
    let keys = keys_of_some(alloc, now)?;
    let mut others = SeriesPlaces::of(alloc, keys);
    let gone = unread(alloc, before.as_slice(), &mut others)?;
    List::from_vec(gone)
}
