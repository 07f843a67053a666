//! Laws of layouts: each call ensures one and does nothing.

ghost use Rattle.histogram_layout.specs.Laws.{
  CountsSumToCount,
  RunningSumsAreCumulative,
  OneCountMore,
  BoundsIncrease,
};

/// The counts of a layout sum to its count, and their running sums are the counts of the buckets.
pub fn counts_sum_up()
    ensures sum { CountsSumToCount }
    ensures running { RunningSumsAreCumulative }
{}

/// A layout has one count more than bounds, and its bounds increase.
pub fn bounds_part_counts()
    ensures one_more { OneCountMore }
    ensures increase { BoundsIncrease }
{}
