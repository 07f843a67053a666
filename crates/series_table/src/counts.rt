//! What is counted over the visits of a target.
ghost use Rattle.std.specs.Prelude.{◌≡◌};
ghost use Rattle.series_table.specs.Counting as counting;

use crate::point_counts::PointCounts;
use otlp_sender::Posted;

/// What was counted over a target's visits.
#[derive(Clone, Copy, Debug, PartialEq, Eq)]
pub struct Counts {
    pub visits: u64,
    /// Visits whose scrape failed.
    pub failed: u64,
    /// Points with a value.
    pub points: u64,
    /// Points without one.
    pub markers: u64,
    /// Bodies that ended with a status from 200 to 299.
    pub accepted: u64,
    /// Bodies that ended with another status that asks for no further try.
    pub refused: u64,
    /// Bodies whose tries were used up.
    pub given_up: u64,
}

/// A count that rises by one where this is so.
fn raised_if(rises: bool, count: u64) -> u64
    ensures { result ≡ counting.raised_if rises count }
{
    if rises {
        return count.saturating_add(1);
    }
    count
}

fn was_accepted(posted: Posted) -> bool
    ensures { result ≡ counting.was_accepted posted }
{
    match posted {
        Posted::Accepted(_) => true,
        Posted::Refused(_) | Posted::GivenUp(_) => false,
    }
}

fn was_refused(posted: Posted) -> bool
    ensures { result ≡ counting.was_refused posted }
{
    match posted {
        Posted::Refused(_) => true,
        Posted::Accepted(_) | Posted::GivenUp(_) => false,
    }
}

fn was_given_up(posted: Posted) -> bool
    ensures { result ≡ counting.was_given_up posted }
{
    match posted {
        Posted::GivenUp(_) => true,
        Posted::Accepted(_) | Posted::Refused(_) => false,
    }
}

impl Counts {
    /// Before the first visit.
    pub(crate) const BEFORE_VISITS: Counts = Counts {
        visits: 0,
        failed: 0,
        points: 0,
        markers: 0,
        accepted: 0,
        refused: 0,
        given_up: 0,
    };

    /// The counts of one visit more: whether its scrape failed, its points, and what came of its body.
    pub(crate) fn with_visit(self, failed: bool, points: PointCounts, posted: Posted) -> Counts
        ensures { result ≡ counting.with_visit self failed points posted }
    {
        Counts {
            visits: self.visits.saturating_add(1),
            failed: raised_if(failed, self.failed),
            points: self.points.saturating_add(points.valued),
            markers: self.markers.saturating_add(points.unvalued),
            accepted: raised_if(was_accepted(posted), self.accepted),
            refused: raised_if(was_refused(posted), self.refused),
            given_up: raised_if(was_given_up(posted), self.given_up),
        }
    }
}
