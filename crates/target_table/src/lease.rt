//! The track of a target that is out, and what a run's name fixes.
ghost use Rattle.std.specs.Prelude.{◌≡◌, ◌-◌, ◌<◌, Some, true, false, []};
ghost use Rattle.std.specs.List.{slice_get};
ghost use Rattle.series_table.specs.Records.{most_visits};
ghost use Rattle.target_table.specs.Runs.{Run};

use bridge_ports::Wire;
use series_table::Track;
use std::marker::{Brand, PhantomData};

/// What a run fixes: its targets, with the plans of their wires, and how often each is visited.
pub trait RunName {
    ghost run: { Run };
}

impl RunName for Brand {
    ghost run = { record { targets = []; rounds = 0 } };
}

/// A track that is out: it is one of the run's target of this number, and goes back to the table.
pub struct Lease<N: RunName, W: Wire> {
    pub number: u32,
    pub track: Track<W>,
    pub(crate) from: u64,
    pub(crate) name: PhantomData<N>,
    ghost some: { 0 < number },
    ghost target: { slice_get N.run.targets (number - 1) ≡ Some track.followed },
    ghost scrape_place: { track.scrape.place ≡ record { number = number; post = false } },
    ghost post_place: { track.post.place ≡ record { number = number; post = true } },
    ghost left: { from < N.run.rounds },
    ghost few: { from < most_visits },
}

impl<N: RunName, W: Wire> Lease<N, W> {
    /// How many visits the track had when it was taken.
    pub fn before(&self) -> u64
        ensures { result ≡ self.now.from }
    {
        self.from
    }
}
