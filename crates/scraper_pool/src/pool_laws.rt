//! Laws of turns and of doors, each as the contract of a function that does nothing.
ghost use Rattle.scraper_pool.specs.Laws.{FewServed, TurnsAreTold};

/// The counts of a share tell a turn: a target was visited exactly where the count of takes rose, and there was none
/// exactly where the count of idle turns rose.
pub fn turns_are_told()
    ensures { TurnsAreTold }
{}

/// No more connections of a door are answered than were handed out.
pub fn few_are_served()
    ensures { FewServed }
{}
