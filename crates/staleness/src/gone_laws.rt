//! Laws of the series that are gone: each call ensures one and does nothing.

ghost use Rattle.staleness.specs.Vanished.{GoneOnce, OnceBetweenSightings, GoneWithoutOwnTimes};
ghost use Rattle.staleness.specs.Marks.{MarksAreEnough};

/// Each series without a time of its own that the page before had and the page now lacks is told once, and no other.
pub fn gone_once()
    ensures { GoneOnce }
{}

/// Between two sightings a series that is gone is told just once, however many pages lack it, and never where its page
/// gave it a time of its own.
pub fn once_between_sightings()
    ensures { OnceBetweenSightings }
{}

/// Where times of the page don't count, the series that are gone are those that the page before has and the page now
/// lacks.
pub fn gone_without_own_times()
    ensures { GoneWithoutOwnTimes }
{}

/// The marks of a page tell which of its series are gone as the page does.
pub fn marks_are_enough()
    ensures { MarksAreEnough }
{}
