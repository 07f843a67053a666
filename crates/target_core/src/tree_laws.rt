//! Laws of the trees of a history: each call ensures one and does nothing.
ghost use Rattle.target_core.specs.Laws.{EmptyPast, MomentsRise, MarkedOnce, MarkerStartIsBefore, OnePartAlone};
ghost use Rattle.target_core.specs.Keeping.{PartsAreTheirs};

/// Without earlier events an event has the tree of a target without a past.
pub fn empty_past()
    ensures { EmptyPast }
{}

/// Moments rise.
pub fn moments_rise()
    ensures { MomentsRise }
{}

/// Each series that is gone has one marker, and no marker begins after its time.
pub fn gone_are_marked_once()
    ensures once { MarkedOnce }
    ensures start { MarkerStartIsBefore }
{}

/// Without target info an event has one part, read behind all scrapes of its target.
pub fn one_part_without_target_info()
    ensures { OnePartAlone }
{}

/// The parts of a history are parts of it.
pub fn parts_are_theirs()
    ensures { PartsAreTheirs }
{}
