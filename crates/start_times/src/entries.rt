//! Series with their rows, in two lists.
ghost use Rattle.std.specs.Prelude.{◌≡◌, ◌<◌, ◌≤◌, ◌+◌, ◌^◌, ◌++◌, [], ◌∷◌, take, zip, length, Some, IfOk, OnOk, OnErr};
ghost use Rattle.std.specs.Bool.{OnTrue};
ghost use Rattle.start_times.specs.Filling.{IsUnshared, IsKeyAt, joined, none_behind, with_entries};

use crate::row::Row;
use label_sets::{List, Memory, SeriesKey};
use std::alloc::Global;
use std::marker::Model;

/// Series with their rows, in the order in which they were put in, made behind another list of series. As long as
/// they are the first ones of that list their keys are not copied: most pages have the series of the page before.
#[derive(Drop)]
pub(crate) struct Entries {
    before: List<SeriesKey>,
    /// How many keys of the list before come first; none once there are keys of its own.
    shared: usize,
    /// The keys behind those.
    own: Vec<SeriesKey>,
    rows: Vec<Row>,
}

impl Model for Entries {
    ghost use Rattle.std.specs.Prelude.{◌≤◌, ◌≡◌, zip, length};
    ghost use Rattle.start_times.specs.Filling.{Filled, IsUnshared, joined};

    ghost Value = { Filled };

    ghost view = { λ e. record { before = e.before; list = zip (joined e.before e.shared e.own.items) e.rows.items } };

    ghost invariant = { λ e. (e.shared ≤ length e.before) × IsUnshared e.shared e.own.items × (length (joined e.before e.shared e.own.items) ≡ length e.rows.items) };
}

impl Entries {
    /// No series yet, behind these, with room for so many.
    pub(crate) fn behind(
        alloc: Global,
        before: List<SeriesKey>,
        count: usize,
    ) -> Result<Entries, Memory>
        ensures { IfOk result (λ entries. entries ≡ none_behind before) }
    {
        let own = Vec::new(alloc);
        let rows = Vec::with_capacity(alloc, count)?;
        Ok(Entries {
            before,
            shared: 0,
            own,
            rows,
        })
    }

    /// Puts a series with its row behind the others. The series stands at this place of the list before, where it
    /// stands there.
    pub(crate) fn push(
        &mut self,
        alloc: Global,
        at: Option<usize>,
        key: &SeriesKey,
        row: Row,
    ) -> Result<(), Memory>
        ensures { IsKeyAt self.old.before at key.now → OnOk result (self.new ≡ with_entries self.old ((key.now, row) ∷ [])) }
    {
        self.rows.reserve(1)?;
        put_key(
            alloc,
            &self.before,
            &mut self.shared,
            &mut self.own,
            at,
            key,
        )?;
        self.rows.push_reserved(row);
        Ok(())
    }

    /// The series, and their rows in the same order.
    pub(crate) fn into_lists(self, alloc: Global) -> Result<(List<SeriesKey>, List<Row>), Memory>
        ensures entries { IfOk result (λ lists. zip lists.0 lists.1 ≡ self.list) }
        ensures even { IfOk result (λ lists. length lists.0 ≡ length lists.1) }
    {
        let keys = all_keys(alloc, self.before, self.shared, self.own)?;
        let rows = List::from_vec(self.rows)?;
        Ok((keys, rows))
    }
}

/// The first keys of a list, with one owner more, in a vector with room for as many as the list has.
fn first_keys(
    alloc: Global,
    before: &List<SeriesKey>,
    count: usize,
) -> Result<Vec<SeriesKey>, Memory>
    requires { count ≤ length before.now }
    ensures { IfOk result (λ keys. keys.items ≡ take count before.now) }
{
    let before = before.as_slice();
    let mut keys = Vec::with_capacity(alloc, before.len())?;
    for at in 0..count {
        keys.push(before[at].copy()?)?;
    }
    Ok(keys)
}

/// Whether the key at a place of the list before is the next one behind so many.
fn goes_on(before: &List<SeriesKey>, shared: usize, at: Option<usize>) -> bool
    ensures { OnTrue result ((at ≡ Some shared) × (shared < length before.now) × (shared + 1 < 2 ^ 64)) }
{
    let Some(at) = at else {
        return false;
    };
    at == shared && shared < before.len()
}

/// Makes all keys so far its own, where some are shared.
fn take_over(
    alloc: Global,
    before: &List<SeriesKey>,
    shared: &mut usize,
    own: &mut Vec<SeriesKey>,
) -> Result<(), Memory>
    requires within { shared.old ≤ length before.now }
    requires unshared { IsUnshared shared.old own.old.items }
    ensures within { shared.new ≤ length before.now }
    ensures unshared { IsUnshared shared.new own.new.items }
    ensures none { OnOk result (shared.new ≡ 0) }
    ensures same { joined before.now shared.new own.new.items ≡ joined before.now shared.old own.old.items }
{
    if own.is_empty() {
        let front = first_keys(alloc, before, *shared)?;
        *own = front;
        *shared = 0;
    }
    Ok(())
}

/// Puts a key that stands at a place of the list before, or nowhere there, behind keys of which so many are the first
/// ones of that list.
fn put_key(
    alloc: Global,
    before: &List<SeriesKey>,
    shared: &mut usize,
    own: &mut Vec<SeriesKey>,
    at: Option<usize>,
    key: &SeriesKey,
) -> Result<(), Memory>
    requires within { shared.old ≤ length before.now }
    requires unshared { IsUnshared shared.old own.old.items }
    ensures within { shared.new ≤ length before.now }
    ensures unshared { IsUnshared shared.new own.new.items }
    ensures put { IsKeyAt before.now at key.now → OnOk result (joined before.now shared.new own.new.items ≡ joined before.now shared.old own.old.items ++ key.now ∷ []) }
    ensures longer { OnOk result (length (joined before.now shared.new own.new.items) ≡ length (joined before.now shared.old own.old.items) + 1) }
    ensures same { OnErr result (joined before.now shared.new own.new.items ≡ joined before.now shared.old own.old.items) }
{
    if own.is_empty() && goes_on(before, *shared, at) {
        *shared += 1;
        return Ok(());
    }
    let key = key.copy()?;
    take_over(alloc, before, shared, own)?;
    own.push(key)?;
    Ok(())
}

/// The first keys of the list before and the others behind them: the list itself where they are all of its keys.
fn all_keys(
    alloc: Global,
    before: List<SeriesKey>,
    shared: usize,
    own: Vec<SeriesKey>,
) -> Result<List<SeriesKey>, Memory>
    requires within { shared ≤ length before }
    requires unshared { IsUnshared shared own.items }
    ensures { IfOk result (λ keys. keys ≡ joined before shared own.items) }
{
    if !own.is_empty() {
        return List::from_vec(own);
    }
    if shared == before.len() {
        return Ok(before);
    }
    let keys = first_keys(alloc, &before, shared)?;
    List::from_vec(keys)
}
