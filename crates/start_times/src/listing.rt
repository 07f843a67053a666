//! Rows with their series, as a list in the order of keys and back.
ghost use Rattle.std.specs.Prelude.{◌≡◌, zip, length, IfOk};
ghost use Rattle.start_times.specs.Keeping.{entries_of, IsSortedListOf};

use crate::entries::Entries;
use crate::row::{Kept, Row, at_age};
use label_sets::{List, Memory, SeriesKey};
use std::alloc::Global;

/// A series with its row, with one owner more.
fn kept_of(key: &SeriesKey, row: &Row) -> Result<Kept, Memory>
    ensures { IfOk result (λ kept. kept ≡ record { key = key.now; row = row.now }) }
{
    let key = key.copy()?;
    let row = at_age(row, row.age)?;
    Ok(Kept { key, row })
}

/// The rows of series, in the order in which they stand.
fn in_order_of_rows(
    alloc: Global,
    keys: &List<SeriesKey>,
    rows: &List<Row>,
) -> Result<Vec<Kept>, Memory>
    requires { length keys.now ≡ length rows.now }
    ensures { IfOk result (λ list. entries_of list.items ≡ zip keys.now rows.now) }
{
    let keys = keys.as_slice();
    let rows = rows.as_slice();
    let mut list = Vec::with_capacity(alloc, rows.len())?;
    for at in 0..rows.len() {
        let kept = kept_of(&keys[at], &rows[at])?;
        list.push(kept)?;
    }
    Ok(list)
}

/// The rows of series, in the order of their keys.
pub(crate) fn listed(
    alloc: Global,
    keys: &List<SeriesKey>,
    rows: &List<Row>,
) -> Result<Vec<Kept>, Memory>
    requires { length keys.now ≡ length rows.now }
    ensures { IfOk result (λ list. IsSortedListOf (zip keys.now rows.now) list.items) }
{
    let mut list = in_order_of_rows(alloc, keys, rows)?;
    list.sort_unstable_by(|a, b| a.key.cmp(&b.key));
    Ok(list)
}

/// Series with their rows, in the order of a list.
pub(crate) fn collected(alloc: Global, rows: &[Kept]) -> Result<Entries, Memory>
    ensures { IfOk result (λ entries. entries.list ≡ entries_of rows.now) }
{
    let mut entries = Entries::behind(alloc, List::new(alloc), rows.len())?;
    for kept in rows {
        let row = at_age(&kept.row, kept.row.age)?;
        entries.push(alloc, None, &kept.key, row)?;
    }
    Ok(entries)
}
