//! The numbers of a line of the report.
ghost use Rattle.std.specs.Prelude.{◌≡◌, ◌^◌, ◌-◌, ◌≤◌};
ghost use Rattle.run_report.specs.Reports as spec;
ghost use Rattle.run_report.specs.Sums.{added, most_of_target, AreOfTargets};

use crate::target_end::TargetEnd;

/// The numbers of a line: of one target, or the sums over several.
#[derive(Clone, Copy, Default)]
pub(crate) struct Numbers {
    pub(crate) visits: u128,
    pub(crate) failed: u128,
    pub(crate) points: u128,
    pub(crate) markers: u128,
    pub(crate) accepted: u128,
    pub(crate) refused: u128,
    pub(crate) given_up: u128,
    /// How many targets were halted.
    pub(crate) halted: u128,
}

/// A count of a target.
fn of_count(count: u64) -> u128
    ensures same { result ≡ count }
    ensures few { result ≤ most_of_target }
{
    u128::from(count)
}

impl Numbers {
    /// The numbers of a target.
    #[tactic(auto, unfolding(crate::specs::Reports::numbers_of))]
    pub(crate) fn of(end: &TargetEnd) -> Numbers
        ensures are { result ≡ spec.numbers_of end.now }
        ensures one { AreOfTargets 1 result }
    {
        let counts = end.counts;
        Numbers {
            visits: of_count(counts.visits),
            failed: of_count(counts.failed),
            points: of_count(counts.points),
            markers: of_count(counts.markers),
            accepted: of_count(counts.accepted),
            refused: of_count(counts.refused),
            given_up: of_count(counts.given_up),
            halted: u128::from(end.halted),
        }
    }

    /// These numbers and those of one target more.
    #[tactic(auto, unfolding(crate::specs::Sums::added))]
    fn and(self, more: Numbers) -> Numbers
        requires these { AreOfTargets (2 ^ 64 - 1) self }
        requires one { AreOfTargets 1 more }
        ensures { result ≡ added self more }
    {
        Numbers {
            visits: self.visits + more.visits,
            failed: self.failed + more.failed,
            points: self.points + more.points,
            markers: self.markers + more.markers,
            accepted: self.accepted + more.accepted,
            refused: self.refused + more.refused,
            given_up: self.given_up + more.given_up,
            halted: self.halted + more.halted,
        }
    }

    /// The sums over targets.
    #[tactic(auto, unfolding(crate::specs::Reports::sums_of))]
    pub(crate) fn sums(ends: &[TargetEnd]) -> Numbers
        ensures { result ≡ spec.sums_of ends.now }
    {
        let mut sums = Numbers::default();
        for end in ends {
            sums = sums.and(Numbers::of(end));
        }
        sums
    }
}
