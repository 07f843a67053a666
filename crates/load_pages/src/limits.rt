//! The limits of a load.
ghost use Rattle.std.specs.Prelude.{◌≡◌, true};
ghost use Rattle.load_pages.specs.GeneratedScripts.{IsLoad};

/// The greatest number that stands for a load.
pub const MOST_NUMBER: u64 = 1_000_000;

/// The most targets of a load.
const MOST_LOAD_TARGETS: u64 = 64;

/// The most rounds of a load.
const MOST_ROUNDS: u64 = 1_000;

/// The most visits of a load, over all targets.
const MOST_VISITS: u64 = 20_000;

/// Whether a number, so many targets and so many rounds are a load.
pub fn is_load(number: u64, targets: u64, rounds: u64) -> bool
    ensures right { result ≡ true → IsLoad number targets rounds }
    ensures only { IsLoad number targets rounds → result ≡ true }
{
    if number > MOST_NUMBER {
        return false;
    }
    if targets == 0 {
        return false;
    }
    if targets > MOST_LOAD_TARGETS {
        return false;
    }
    if rounds == 0 {
        return false;
    }
    if rounds > MOST_ROUNDS {
        return false;
    }
    targets * rounds <= MOST_VISITS
}
