//! The series of a page that the next page lacks.
ghost use Rattle.std.specs.Prelude.{◌≡◌, false, filter, IfOk};
ghost use Rattle.std.specs.Option.{option_copied};
ghost use Rattle.packed_keys.specs.Partings.{keys_behind};
ghost use Rattle.page_model.specs.Presence as presence;
ghost use Rattle.start_times.specs.Starts.{Tracking};
ghost use Rattle.staleness.specs.Vanished as spec;
ghost use Rattle.staleness.specs.Vanished.{keys_gone, page_or_empty};

use crate::keys::untimed_keys;
use label_sets::{List, Memory, SeriesKey};
use packed_keys::{SeriesPlaces, part};
use page_model::Page;
use start_times::has_points;
use std::alloc::Global;

/// The keys of a page where they are, or none.
fn keys_of_some(alloc: Global, page: Option<&Page>) -> Result<Vec<&SeriesKey>, Memory>
    ensures { IfOk result (λ keys. keys_behind keys.items ≡ spec.untimed_keys false (presence.all_readings (page_or_empty (option_copied page.entry)))) }
{
    match page {
        Some(page) => untimed_keys(alloc, false, page),
        None => Ok(Vec::new(alloc)),
    }
}

/// Whether a series has points and is not among others.
fn is_lacking(alloc: Global, others: &mut SeriesPlaces, key: &SeriesKey) -> Result<bool, Memory>
    ensures lacking { IfOk result (λ lacking. lacking ≡ spec.is_lacking others.old key.now) }
    ensures others { others.new ≡ others.old }
{
    if !has_points(key.kind) {
        return Ok(false);
    }
    Ok(others.find(alloc, key)?.is_none())
}

/// The series with points that are not among others.
fn lacking(
    alloc: Global,
    keys: &[SeriesKey],
    others: &mut SeriesPlaces,
) -> Result<Vec<SeriesKey>, Memory>
    ensures { IfOk result (λ lacking. lacking.items ≡ filter (spec.is_lacking others.old) keys.now) }
{
    let mut lacking = Vec::new(alloc);
    for key in keys {
        if is_lacking(alloc, others, key)? {
            lacking.push(key.copy()?)?;
        }
    }
    Ok(lacking)
}

/// The series with points that the page before has and the page now lacks, in the order of the page before; all of
/// them where there is no page now, since the scrape failed. Where times of the page count, those that it gave a time
/// are passed over: of these it says itself until when they hold. Only keys that stand elsewhere than in the page
/// before are hashed. Want of memory is the only error (OTLP 1.x, "DataPointFlags"; Prometheus, "Staleness" and
/// `honor_timestamps`).
///
/// # Errors
///
/// Want of memory.
///
/// # Example
///
/// ```rust
/// // The page before has the counter `c_total`, and the scrape now failed.
/// let gone = vanished(alloc, &before, None, false)?;
/// let first = gone.as_slice().first();
/// assert!(rt; gone.len() == 1 && first.is_some_and(|key| key.name.as_str() == "c_total"));
/// ```
pub fn vanished(
    alloc: Global,
    before: &Page,
    now: Option<&Page>,
    honor: bool,
) -> Result<List<SeriesKey>, Memory>
    ensures { IfOk result (λ keys. (t : Tracking) → t.honor ≡ honor → keys ≡ keys_gone t before.now (page_or_empty (option_copied now.entry))) }
{
    let keys = untimed_keys(alloc, honor, before)?;
    let others = keys_of_some(alloc, now)?;
    let parted = part(alloc, others.as_slice(), keys.as_slice())?;
    let mut left = SeriesPlaces::of(alloc, parted.left);
    let gone = lacking(alloc, parted.strays.as_slice(), &mut left)?;
    List::from_vec(gone)
}
