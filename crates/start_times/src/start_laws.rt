//! Laws of starts, times and rows: each call ensures some and does nothing else.

ghost use Rattle.start_times.specs.Laws.{
  RowIsEnough,
  RowOfSight,
  RowOfMiss,
  StartWithoutPast,
  StartIsNotLater,
  StartStays,
  TakenBehindMisses,
  NoneIsLate,
  RowsAreFew,
};
ghost use Rattle.start_times.specs.PlainTimes.{PlainPlaces, PlainStartsThere};
ghost use Rattle.start_times.specs.Keeping.{RowsAreThosePast, RowsTrackAgain};

/// A row is all that a reading's time and start need of a past, and one scrape more makes each row anew, older, or
/// ends it.
pub fn rows_stand_for_pasts()
    ensures enough { RowIsEnough }
    ensures sight { RowOfSight }
    ensures miss { RowOfMiss }
{}

/// Without a past a series began when it was created, else with its reading.
pub fn start_without_past()
    ensures { StartWithoutPast }
{}

/// The start of a reading that is taken is never later than its time.
pub fn start_is_not_later()
    ensures { StartIsNotLater }
{}

/// Between two breaks all points of a series have one start, and no more than `keep` misses are no break.
pub fn start_stays()
    ensures stays { StartStays }
    ensures misses { TakenBehindMisses }
{}

/// Where times of the page don't count and moments rise, no reading is late, and points and markers have the starts
/// that moments alone give.
pub fn moments_alone_count()
    ensures none { NoneIsLate }
    ensures places { PlainPlaces }
    ensures markers { PlainStartsThere }
{}

/// The rows are at most `keep + 1` times the most readings of a page.
pub fn rows_are_few()
    ensures { RowsAreFew }
{}

/// The rows of a tracker in the order of keys are told by its past, and a tracker of just these rows stands for each
/// past for which it stood.
pub fn rows_are_those_of_pasts()
    ensures past { RowsAreThosePast }
    ensures again { RowsTrackAgain }
{}
