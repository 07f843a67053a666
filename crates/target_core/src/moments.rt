//! Moments of scrapes.
ghost use Rattle.std.specs.Prelude.{◌≡◌};
ghost use Rattle.start_times.specs.Scrapes as scrapes;
ghost use Rattle.target_core.specs.States.{HasNextMoment};

/// The greatest reading of a clock that counts as it is: 2^62, in nanoseconds since the Unix epoch.
const LATEST_READING: u64 = 4_611_686_018_427_387_904;

/// The moment of a scrape with this reading of the clock, behind that of the scrape before.
pub(crate) fn moment_after(before: Option<u64>, reading: u64) -> u64
    requires { HasNextMoment before }
    ensures { result ≡ scrapes.moment_after before reading }
{
    let reading = reading.min(LATEST_READING);
    match before {
        Some(before) => reading.max(before + 1),
        None => reading,
    }
}
