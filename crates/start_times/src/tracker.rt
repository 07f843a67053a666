//! The rows of a target's series.
ghost use Rattle.std.specs.Prelude.{◌≡◌, ◌+◌, ◌*◌, ◌≤◌, List as Seq, [], length, take, map, IfOk};
ghost use Rattle.std.specs.List.{IsDistinct};
ghost use Rattle.std.specs.Map.{keys_of};
ghost use Rattle.label_sets.specs.Keys.{key_eq};
ghost use Rattle.start_times.specs.Scrapes.{Scrape};
ghost use Rattle.start_times.specs.Starts.{Tracking};
ghost use Rattle.start_times.specs.Rows.{Tracks, kept_start, most_readings};
ghost use Rattle.start_times.specs.Advancing.{Advances};
ghost use Rattle.start_times.specs.Keeping.{AreRowsOf, entries_of};

use crate::listing::{collected, listed};
use crate::row::{Kept, KeptStarts, Row, Starts};
use crate::sighting::{Sighting, keep_others, nothing, see_beside, starts_among};
use label_sets::{List, Memory, SeriesKey};
use page_model::Page;
use std::alloc::Global;
use std::marker::Model;

/// What is remembered of a target's series: a row for each that can still come back.
#[derive(Drop)]
pub struct Tracker {
    keep: u32,
    /// Whether times of the page count.
    honor: bool,
    /// The keys of the rows, in the same order.
    keys: List<SeriesKey>,
    rows: List<Row>,
}

impl Model for Tracker {
    ghost use Rattle.std.specs.Prelude.{◌≡◌, zip, length};
    ghost use Rattle.start_times.specs.Rows.{Tracked};

    ghost Value = { Tracked };

    ghost view = { λ t. record { keep = t.keep; honor = t.honor; rows = zip t.keys t.rows } };

    ghost invariant = { λ t. length t.keys ≡ length t.rows };
}

impl Tracker {
    /// No rows, to be kept over so many scrapes that miss a series, where times of the page count or not. It takes
    /// no memory.
    pub fn new(alloc: Global, keep: u32, honor: bool) -> Tracker
        requires { keep ≤ 4 }
        ensures { Tracks (record { keep = keep; honor = honor }) result [] }
    {
        Tracker {
            keep,
            honor,
            keys: List::new(alloc),
            rows: List::new(alloc),
        }
    }

    /// The same rows, with one owner more.
    ///
    /// # Errors
    ///
    /// Want of memory.
    pub fn copy(&self) -> Result<Tracker, Memory>
        ensures { IfOk result (λ tracker. tracker ≡ self.now) }
    {
        let keys = self.keys.copy()?;
        let rows = self.rows.copy()?;
        Ok(Tracker {
            keep: self.keep,
            honor: self.honor,
            keys,
            rows,
        })
    }

    /// What a page's readings give at this moment, and the rows behind it. A moment is in nanoseconds since the Unix
    /// epoch. A reading that is not later than the one of its series that was taken before it is late: it gives no
    /// point, and leaves its row but for the age. Whether the page lacks a series of the page before is told by the rows
    /// alone, which have age 0 for just the series with points of that page.
    ///
    /// # Errors
    ///
    /// Want of memory.
    ///
    /// # Example
    ///
    /// ```rust
    /// // A counter is 5 on the first page, 7 on the second, and 3 on the third. No reading has a time of its own.
    /// let (first, tracker) = Tracker::new(alloc, 2, true).advance(alloc, &five, 10)?;
    /// let (second, tracker) = tracker.advance(alloc, &seven, 20)?;
    /// let (late, tracker) = tracker.advance(alloc, &three, 20)?;
    /// let (third, _) = tracker.advance(alloc, &three, 30)?;
    /// assert_eq!(rt; first.list.as_slice(), [Some(Placed::At { time: 10, start: 10 })].as_slice());
    /// assert_eq!(rt; second.list.as_slice(), [Some(Placed::At { time: 20, start: 10 })].as_slice());
    /// assert_eq!(rt; late.list.as_slice(), [Some(Placed::Late)].as_slice());
    /// assert_eq!(rt; third.list.as_slice(), [Some(Placed::At { time: 30, start: 30 })].as_slice());
    /// ```
    pub fn advance(
        &self,
        alloc: Global,
        page: &Page,
        moment: u64,
    ) -> Result<(Starts, Tracker), Memory>
        ensures { IfOk result (λ r. Advances self.now page.now moment r.0 r.1) }
    {
        let mut seen = nothing(alloc, &self.keys)?;
        let families = page.families().as_slice();
        see_beside(
            alloc, self.honor, moment, &self.keys, &self.rows, &mut seen, families,
        )?;
        let found = seen.found.as_slice();
        let entries = &mut seen.entries;
        let misses = keep_others(alloc, self.keep, &self.keys, &self.rows, found, entries)?;
        behind(alloc, self.keep, self.honor, seen, misses)
    }

    /// How many rows there are.
    pub fn rows(&self) -> u64
        ensures rows { result ≡ length self.now.rows }
        ensures few { (t : Tracking) (past : Seq Scrape) → Tracks t self.now past → result ≤ (t.keep + 1) * most_readings (take (t.keep + 1) past) }
    {
        self.rows.len() as u64
    }

    /// Since when the values of series count, one after the other; none for a series that has no row, or whose kind has
    /// no starts.
    ///
    /// # Errors
    ///
    /// Want of memory.
    pub fn starts_of(&self, alloc: Global, keys: &List<SeriesKey>) -> Result<KeptStarts, Memory>
        ensures { IfOk result (λ starts. IsDistinct key_eq (keys_of self.now.rows) → starts.list ≡ map (kept_start self.now.rows) keys.now) }
    {
        let starts = starts_among(alloc, &self.keys, &self.rows, keys.as_slice())?;
        let list = List::from_vec(starts)?;
        Ok(KeptStarts { list })
    }

    /// All rows, in the order of their keys.
    ///
    /// # Errors
    ///
    /// Want of memory.
    pub fn kept(&self, alloc: Global) -> Result<List<Kept>, Memory>
        ensures { IfOk result (λ rows. IsDistinct key_eq (keys_of self.now.rows) → AreRowsOf self.now rows) }
    {
        let rows = listed(alloc, &self.keys, &self.rows)?;
        List::from_vec(rows)
    }

    /// A tracker that has just these rows, whose series are distinct, to be kept over so many scrapes that miss a series.
    ///
    /// # Errors
    ///
    /// Want of memory.
    pub fn from_kept(
        alloc: Global,
        keep: u32,
        honor: bool,
        rows: &List<Kept>,
    ) -> Result<Tracker, Memory>
        ensures { IfOk result (λ tracker. tracker ≡ record { keep = keep; honor = honor; rows = entries_of rows.now }) }
    {
        let entries = collected(alloc, rows.as_slice())?;
        let (keys, rows) = entries.into_lists(alloc)?;
        Ok(Tracker {
            keep,
            honor,
            keys,
            rows,
        })
    }
}

/// What was seen of a page and what it misses, and the rows behind it.
fn behind(
    alloc: Global,
    keep: u32,
    honor: bool,
    seen: Sighting,
    misses: bool,
) -> Result<(Starts, Tracker), Memory>
    ensures { IfOk result (λ r. (r.0.list ≡ seen.starts.items) × (r.1.keep ≡ keep) × (r.1.honor ≡ honor) × (r.1.rows ≡ seen.entries.list) × (r.0.misses ≡ misses)) }
{
    let (keys, rows) = seen.entries.into_lists(alloc)?;
    let list = List::from_vec(seen.starts)?;
    Ok((
        Starts { list, misses },
        Tracker {
            keep,
            honor,
            keys,
            rows,
        },
    ))
}
