//! Laws of the table's machine, each as the contract of a function that does nothing.
ghost use Rattle.series_table.specs.HttpTalks.{talking};
ghost use Rattle.target_table.specs.Laws.{Isolation, SameOwnSteps, PagesAreOwn, SeenUntilPut, BodiesInEveryRun, ShownGatherTheSame};
ghost use Rattle.target_table.specs.Mirrors.{HasOneOutcome, TakeIsAStep, VisitIsAStep, PutIsAStep, PageIsAStep};

/// In every run of the table, the talks, posts, visits and shown page of each target are those of its own steps, which
/// are a run of the table that has this target alone; so they depend on nothing else. What a page shows of a target is
/// what a page of that run shows, and changes only where the target is put back.
pub fn isolation()
    ensures own { Isolation talking }
    ensures same { SameOwnSteps talking }
    ensures pages { PagesAreOwn talking }
    ensures until_put { SeenUntilPut }
{}

/// In every run each target's bodies are the texts of the events that its own talks tell, one for each visit.
pub fn bodies_in_every_run()
    ensures { BodiesInEveryRun talking }
{}

/// Where a table shows a state of the machine, a take, a put and a page of the table are steps of the machine, and behind
/// a visit the track has what the machine has behind a visit or a halt.
pub fn calls_are_steps()
    ensures take { TakeIsAStep talking }
    ensures visit { VisitIsAStep talking }
    ensures put { PutIsAStep talking }
    ensures page { PageIsAStep talking }
{}

/// A talk comes to one outcome.
pub fn one_outcome()
    ensures { HasOneOutcome talking }
{}

/// What a target shows is its page without exemplars, and without the families that have no reading. Neither is anything
/// on the federation page: that of the whole pages is the same.
pub fn shown_gathered()
    ensures { ShownGatherTheSame }
{}
