//! What is remembered of a series, and what its next reading gives beside it.
ghost use Rattle.std.specs.Prelude.{◌≡◌, IfOk};
ghost use Rattle.std.specs.Option.{option_copied};
ghost use Rattle.start_times.specs.Starts.{created_at as created_in, last_of as shown_of};
ghost use Rattle.start_times.specs.Rows as spec;
ghost use Rattle.start_times.specs.Rows.{start_beside, placed_beside, row_at_age, row_now};
ghost use Rattle.start_times.specs.declared.row.Placed.TheVariants.{Late, At};

use crate::falls::falls;
use crate::values::{created_at, last_of};
use exact_decimal::Number;
use histogram_layout::Layout;
use label_sets::{List, Memory, SeriesKey};
use page_model::Reading;
use std::alloc::Global;

/// What is remembered of a value to see it fall.
#[derive(Drop)]
pub enum Last {
    Plain(Number),
    Buckets(Layout),
    Count(u64),
}

impl Last {
    /// An equal value, whose layout's lists have one owner more.
    fn copy(&self) -> Result<Last, Memory>
        ensures { IfOk result (λ last. last ≡ self.now) }
    {
        Ok(match self {
            Last::Plain(number) => Last::Plain(*number),
            Last::Buckets(layout) => Last::Buckets(layout.copy()?),
            Last::Count(count) => Last::Count(*count),
        })
    }
}

/// What is remembered of a series since its last reading.
#[derive(Drop)]
pub struct Row {
    /// Since when its value counts, in nanoseconds since the Unix epoch.
    pub start: u64,
    /// When the page said that it was created, where that counted.
    pub created: Option<u64>,
    /// The time of the reading that was last taken.
    pub time: u64,
    pub last: Last,
    /// How many scrapes missed it since it was last there.
    pub age: u32,
}

/// A series and what is remembered of it.
#[derive(Drop)]
pub struct Kept {
    pub key: SeriesKey,
    pub row: Row,
}

/// What a reading gives.
#[derive(Clone, Copy, Debug, PartialEq, Eq)]
pub enum Placed {
    /// Nothing: its time is not later than that of the reading taken before it.
    Late,
    /// A point at this time, with this start, which a kind without starts does not use.
    At { time: u64, start: u64 },
}

/// What a page's readings give, and whether the page lacks what the page before had.
#[derive(Drop)]
pub struct Starts {
    /// What each reading gives, in page order; none exactly for gauge histograms, which have no points.
    pub list: List<Option<Placed>>,
    /// Whether the page lacks a series with points that the page before had.
    pub misses: bool,
}

/// The starts that are kept of series, in the order in which they were asked; none where no row is kept, or its
/// kind has no starts.
#[derive(Drop)]
pub struct KeptStarts {
    pub list: List<Option<u64>>,
}

/// What a reading gives, and the row of its series then.
#[derive(Drop)]
pub(crate) struct Next {
    pub(crate) placed: Placed,
    pub(crate) row: Row,
}

/// Whether a series begins anew beside its row, with what its reading says of its creation and its value.
#[tactic(auto, unfolding(crate::specs::Rows::is_reset_since))]
fn is_reset_since(
    row: &Row,
    time: u64,
    reading: &Reading,
    created: Option<u64>,
    last: &Last,
) -> bool
    requires created { created ≡ created_in time reading.now }
    requires last { last.now ≡ shown_of reading.now.value }
    ensures { result ≡ spec.is_reset_since row.now time reading.now }
{
    falls(reading.key.kind, &row.last, last) || row.created != created
}

/// When a series last began anew, beside its row, where it has one.
fn reset_since(
    row: Option<&Row>,
    time: u64,
    reading: &Reading,
    created: Option<u64>,
    last: &Last,
) -> u64
    requires created { created ≡ created_in time reading.now }
    requires last { last.now ≡ shown_of reading.now.value }
    ensures { result ≡ spec.reset_since (option_copied row.entry) time reading.now }
{
    let Some(row) = row else {
        return time;
    };
    if is_reset_since(row, time, reading, created, last) {
        return time;
    }
    row.start
}

/// The row of a reading that is taken, beside the row that was kept of its series.
#[tactic(auto, unfolding(crate::specs::Rows::taken_row, crate::specs::Rows::start_beside))]
fn taken_row(alloc: Global, row: Option<&Row>, time: u64, reading: &Reading) -> Result<Row, Memory>
    ensures row { IfOk result (λ next. next ≡ spec.taken_row (option_copied row.entry) time reading.now) }
    ensures start { IfOk result (λ next. next.start ≡ start_beside (option_copied row.entry) time reading.now) }
{
    let created = created_at(time, reading);
    let last = last_of(alloc, &reading.value)?;
    let reset = reset_since(row, time, reading, created, &last);
    Ok(Row {
        start: created.unwrap_or(reset),
        created,
        time,
        last,
        age: 0,
    })
}

/// What a reading that is taken gives, beside the row that was kept of its series.
fn taken(alloc: Global, row: Option<&Row>, time: u64, reading: &Reading) -> Result<Next, Memory>
    ensures placed { IfOk result (λ next. next.placed ≡ At time (start_beside (option_copied row.entry) time reading.now)) }
    ensures row { IfOk result (λ next. next.row ≡ spec.taken_row (option_copied row.entry) time reading.now) }
{
    let row = taken_row(alloc, row, time, reading)?;
    let start = row.start;
    let placed = Placed::At { time, start };
    Ok(Next { placed, row })
}

/// The same row at another age.
#[tactic(auto, unfolding(crate::specs::Rows::row_at_age))]
pub(crate) fn at_age(row: &Row, age: u32) -> Result<Row, Memory>
    ensures { IfOk result (λ next. next ≡ row_at_age row.now age) }
{
    let last = row.last.copy()?;
    Ok(Row {
        start: row.start,
        created: row.created,
        time: row.time,
        last,
        age,
    })
}

/// What a reading that is late gives: no point, and no other row than that of its series.
fn passed_over(row: &Row) -> Result<Next, Memory>
    ensures placed { IfOk result (λ next. next.placed ≡ Late) }
    ensures row { IfOk result (λ next. next.row ≡ row_at_age row.now 0) }
{
    let row = at_age(row, 0)?;
    let placed = Placed::Late;
    Ok(Next { placed, row })
}

/// What a reading gives at its time, beside the row that was kept of its series, where one was.
#[tactic(auto, unfolding(crate::specs::Rows::placed_beside))]
pub(crate) fn next_beside(
    alloc: Global,
    row: Option<&Row>,
    time: u64,
    reading: &Reading,
) -> Result<Next, Memory>
    ensures placed { IfOk result (λ next. next.placed ≡ placed_beside (option_copied row.entry) time reading.now) }
    ensures row { IfOk result (λ next. next.row ≡ row_now (option_copied row.entry) time reading.now) }
{
    let Some(before) = row else {
        return taken(alloc, row, time, reading);
    };
    if before.time < time {
        return taken(alloc, row, time, reading);
    }
    passed_over(before)
}

/// The row one scrape later, where that misses the series; none where more than `keep` would have missed it.
#[tactic(auto, unfolding(crate::specs::Rows::older_row))]
pub(crate) fn older_row(keep: u32, row: &Row) -> Result<Option<Row>, Memory>
    ensures { IfOk result (λ older. older ≡ spec.older_row keep row.now) }
{
    if row.age >= keep {
        return Ok(None);
    }
    let older = at_age(row, row.age + 1)?;
    Ok(Some(older))
}
