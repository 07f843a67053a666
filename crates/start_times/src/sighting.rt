//! What one page makes of the rows, reading by reading.
ghost use Rattle.std.specs.Prelude.{◌≡◌, ◌++◌, [], ◌∷◌, true, false, zip, map, replicate, slice_set, slice_index_or, length, slice_get, option_and_then, MatchOption, Some, IfOk, OnOk};
ghost use Rattle.std.specs.List.{IsDistinct, flat_map};
ghost use Rattle.std.specs.Option.{option_copied};
ghost use Rattle.label_sets.specs.Keys.{key_eq};
ghost use Rattle.page_model.specs.declared.page.Family.{Family as OneFamily};
ghost use Rattle.start_times.specs.Rows.{kept_start, row_start as start_of_row};
ghost use Rattle.start_times.specs.Filling.{IsKeyAt, none_behind, with_entries};
ghost use Rattle.start_times.specs.Sightings.{Sees, KeepsMissed, TellsMisses, missed_entries};

use crate::entries::Entries;
use crate::row::{Placed, Row, next_beside, older_row};
use crate::values::{has_points, has_start, time_of};
use label_sets::{List, Memory, SeriesKey};
use packed_keys::SeriesPlaces;
use page_model::{Family, Reading};
use std::alloc::Global;

/// What was seen of a page so far.
#[derive(Drop)]
pub(crate) struct Sighting {
    /// What its readings give.
    pub(crate) starts: Vec<Option<Placed>>,
    /// The rows that they make.
    pub(crate) entries: Entries,
    /// Which of the rows before it they are of.
    pub(crate) found: Vec<bool>,
}

/// Nothing seen of a page, before which there were rows of these series: most pages make about as many again.
pub(crate) fn nothing(alloc: Global, keys: &List<SeriesKey>) -> Result<Sighting, Memory>
    ensures { IfOk result (λ s. (s.starts.items ≡ []) × (s.entries ≡ none_behind keys.now) × (s.found.items ≡ replicate (length keys.now) false)) }
{
    let rows = keys.len();
    let before = keys.copy()?;
    Ok(Sighting {
        starts: Vec::with_capacity(alloc, rows)?,
        entries: Entries::behind(alloc, before, rows)?,
        found: vec![in alloc; false; rows]?,
    })
}

/// The row at a place.
fn row_at(rows: &List<Row>, at: Option<usize>) -> Option<&Row>
    ensures { option_copied result ≡ option_and_then (slice_get rows.now) at }
{
    match at {
        Some(at) => rows.as_slice().get(at),
        None => None,
    }
}

/// The start of a row, where the kind of its series has starts.
fn row_start(key: &SeriesKey, row: &Row) -> Option<u64>
    ensures { result ≡ start_of_row key.now row.now }
{
    if !has_start(key.kind) {
        return None;
    }
    Some(row.start)
}

/// The start of the row at a place, where the kind of its series has starts.
fn start_at(rows: &List<Row>, at: Option<usize>, key: &SeriesKey) -> Option<u64>
    ensures { result ≡ option_and_then (start_of_row key.now) (option_and_then (slice_get rows.now) at) }
{
    match row_at(rows, at) {
        Some(row) => row_start(key, row),
        None => None,
    }
}

/// The starts of the rows of series, one after the other.
fn starts_at(
    alloc: Global,
    rows: &List<Row>,
    places: &mut SeriesPlaces,
    keys: &[SeriesKey],
) -> Result<Vec<Option<u64>>, Memory>
    requires { length places.old ≡ length rows.now }
    ensures { IfOk result (λ starts. IsDistinct key_eq places.old → starts.items ≡ map (kept_start (zip places.old rows.now)) keys.now) }
{
    let mut starts = Vec::with_capacity(alloc, keys.len())?;
    for key in keys {
        let at = places.find(alloc, key)?;
        starts.push(start_at(rows, at, key))?;
    }
    Ok(starts)
}

/// The starts of the rows of series, among these series with their rows.
pub(crate) fn starts_among(
    alloc: Global,
    keys: &List<SeriesKey>,
    rows: &List<Row>,
    asked: &[SeriesKey],
) -> Result<Vec<Option<u64>>, Memory>
    requires { length keys.now ≡ length rows.now }
    ensures { IfOk result (λ starts. IsDistinct key_eq keys.now → starts.items ≡ map (kept_start (zip keys.now rows.now)) asked.now) }
{
    let mut places = SeriesPlaces::of(alloc, keys.copy()?);
    starts_at(alloc, rows, &mut places, asked)
}

/// Notes that the row at a place was found, where one was.
fn mark(found: &mut Vec<bool>, at: Option<usize>)
    ensures { MatchOption at (found.new.items ≡ found.old.items) (λ place. found.new.items ≡ slice_set found.old.items place true) }
{
    let Some(at) = at else {
        return;
    };
    if let Some(mark) = found.get_mut(at) {
        *mark = true;
    }
}

/// Sees a reading beside the rows.
pub(crate) fn see(
    alloc: Global,
    honor: bool,
    moment: u64,
    rows: &List<Row>,
    places: &mut SeriesPlaces,
    seen: &mut Sighting,
    reading: &Reading,
) -> Result<(), Memory>
    requires { length places.old ≡ length rows.now }
    ensures places { places.new ≡ places.old }
    ensures seen { OnOk result (Sees honor (zip places.old rows.now) moment (reading.now ∷ []) seen.old seen.new) }
{
    if !has_points(reading.key.kind) {
        seen.starts.push(None)?;
        return Ok(());
    }
    let time = time_of(honor, moment, reading);
    let at = places.find(alloc, &reading.key)?;
    let next = next_beside(alloc, row_at(rows, at), time, reading)?;
    seen.starts.push(Some(next.placed))?;
    seen.entries.push(alloc, at, &reading.key, next.row)?;
    mark(&mut seen.found, at);
    Ok(())
}

/// Sees the readings of a family.
fn see_all(
    alloc: Global,
    honor: bool,
    moment: u64,
    rows: &List<Row>,
    places: &mut SeriesPlaces,
    seen: &mut Sighting,
    readings: &[Reading],
) -> Result<(), Memory>
    requires { length places.old ≡ length rows.now }
    ensures places { places.new ≡ places.old }
    ensures seen { OnOk result (Sees honor (zip places.old rows.now) moment readings.now seen.old seen.new) }
{
    for reading in readings {
        see(alloc, honor, moment, rows, places, seen, reading)?;
    }
    Ok(())
}

/// Sees the readings of families.
fn see_families(
    alloc: Global,
    honor: bool,
    moment: u64,
    rows: &List<Row>,
    places: &mut SeriesPlaces,
    seen: &mut Sighting,
    families: &[Family],
) -> Result<(), Memory>
    requires { length places.old ≡ length rows.now }
    ensures places { places.new ≡ places.old }
    ensures seen { OnOk result (Sees honor (zip places.old rows.now) moment (flat_map (λ (f : OneFamily). f.readings) families.now) seen.old seen.new) }
{
    for family in families {
        see_all(
            alloc,
            honor,
            moment,
            rows,
            places,
            seen,
            family.readings.as_slice(),
        )?;
    }
    Ok(())
}

/// Sees the readings of families beside these series with their rows.
pub(crate) fn see_beside(
    alloc: Global,
    honor: bool,
    moment: u64,
    keys: &List<SeriesKey>,
    rows: &List<Row>,
    seen: &mut Sighting,
    families: &[Family],
) -> Result<(), Memory>
    requires { length keys.now ≡ length rows.now }
    ensures { OnOk result (Sees honor (zip keys.now rows.now) moment (flat_map (λ (f : OneFamily). f.readings) families.now) seen.old seen.new) }
{
    let mut places = SeriesPlaces::of(alloc, keys.copy()?);
    see_families(alloc, honor, moment, rows, &mut places, seen, families)
}

/// Whether the row at a place was found.
fn is_marked(found: &[bool], at: usize) -> bool
    ensures { result ≡ slice_index_or found.now at false }
{
    match found.get(at) {
        Some(mark) => *mark,
        None => false,
    }
}

/// Keeps the row of a series, which stands at this place of the list before, one scrape longer, where it may be kept.
fn keep_missed(
    alloc: Global,
    keep: u32,
    entries: &mut Entries,
    at: usize,
    key: &SeriesKey,
    row: &Row,
) -> Result<(), Memory>
    ensures { IsKeyAt entries.old.before (Some at) key.now → OnOk result (entries.new ≡ with_entries entries.old (missed_entries keep (key.now, row.now))) }
{
    if let Some(row) = older_row(keep, row)? {
        entries.push(alloc, Some(at), key, row)?;
    }
    Ok(())
}

/// Keeps the rows that were not found one scrape longer, where they may be kept, and tells whether the scrape before
/// had the series of one of them: such a row has age 0.
pub(crate) fn keep_others(
    alloc: Global,
    keep: u32,
    keys: &List<SeriesKey>,
    rows: &List<Row>,
    found: &[bool],
    entries: &mut Entries,
) -> Result<bool, Memory>
    requires { length keys.now ≡ length rows.now }
    ensures kept { OnOk result (KeepsMissed keep keys.now rows.now found.now entries.old entries.new) }
    ensures misses { IfOk result (λ misses. TellsMisses keys.now rows.now found.now misses) }
{
    let keys = keys.as_slice();
    let rows = rows.as_slice();
    let mut misses = false;
    for at in 0..rows.len() {
        if !is_marked(found, at) {
            misses |= rows[at].age == 0;
            keep_missed(alloc, keep, entries, at, &keys[at], &rows[at])?;
        }
    }
    Ok(misses)
}
