//! What a sample gives the group that it is of: its part, its time and its exemplar.
ghost use Rattle.std.specs.Prelude.{◌≡◌, ◌*◌, IfOk};
ghost use Rattle.page_model.specs.declared.format.Format.TheVariants as formats;
ghost use Rattle.page_model.specs.Readings.{within_time};
ghost use Rattle.sample_groups.specs.Parts.{nanos_per_millisecond, stamped_time, sample_time};

use crate::part::Part;
use exact_decimal::{Number, nanos, whole};
use label_sets::Memory;
use page_model::{Exemplar, Format, Sample};

/// The latest time that a page may give, in nanoseconds since the Unix epoch.
const LATEST_TIME: u64 = 1 << 62;

/// The latest time that is no later, in whole milliseconds.
const LATEST_MILLISECONDS: u64 = 4_611_686_018_427;

/// How many nanoseconds a millisecond has.
const NANOS_PER_MILLISECOND: u64 = 1_000_000;

/// What a sample gives its group, lent to it, since most groups keep the part alone.
#[derive(Clone, Copy)]
pub struct MemberRef<'a> {
    pub part: &'a Part,
    /// The time of its line in nanoseconds since the Unix epoch.
    pub time: Option<u64>,
    pub exemplar: &'a Option<Exemplar>,
}

impl MemberRef<'_> {
    ghost use Rattle.sample_groups.specs.Groups.{exemplar_in};
    ghost use Rattle.sample_groups.specs.Members.{member_behind};

    /// Its exemplar, where it may have one: the exemplar's labels have one owner more.
    pub(crate) fn own_exemplar(&self) -> Result<Option<Exemplar>, Memory>
        ensures { IfOk result (λ exemplar. exemplar ≡ exemplar_in (member_behind self.now)) }
    {
        if !self.part.bears_exemplar() {
            return Ok(None);
        }
        match self.exemplar {
            Some(exemplar) => Ok(Some(exemplar.copy()?)),
            None => Ok(None),
        }
    }
}

/// A time, where it isn't after the latest.
fn within_time(time: u64) -> Option<u64>
    ensures { result ≡ within_time time }
{
    if time <= LATEST_TIME {
        Some(time)
    } else {
        None
    }
}

/// The time of so many milliseconds, where it isn't after the latest.
#[tactic(auto, using(crate::proofs::Times::past_latest, crate::proofs::Times::by_latest))]
fn time_of_milliseconds(milliseconds: u64) -> Option<u64>
    ensures { result ≡ within_time (milliseconds * nanos_per_millisecond) }
{
    if milliseconds > LATEST_MILLISECONDS {
        None
    } else {
        Some(milliseconds * NANOS_PER_MILLISECOND)
    }
}

/// The time of a stamp in milliseconds, as the text format has it.
fn text_time(stamp: &Number) -> Option<u64>
    ensures { result ≡ stamped_time formats.Text stamp.now }
{
    match whole(stamp) {
        Some(milliseconds) => time_of_milliseconds(milliseconds),
        None => None,
    }
}

/// The time of a stamp in seconds, as OpenMetrics has it.
fn open_time(stamp: &Number) -> Option<u64>
    ensures { result ≡ stamped_time formats.OpenMetrics stamp.now }
{
    match nanos(stamp) {
        Some(time) => within_time(time),
        None => None,
    }
}

/// The time of a stamp.
fn stamped_time(format: Format, stamp: &Number) -> Option<u64>
    ensures { result ≡ stamped_time format stamp.now }
{
    match format {
        Format::Text => text_time(stamp),
        Format::OpenMetrics => open_time(stamp),
    }
}

/// The time of a sample's line in nanoseconds since the Unix epoch, where it has one from 1970 on and no later than
/// 2^62 (Prometheus text format 0.0.4, "Comments, help text, and type information"; OpenMetrics 1.0, "Timestamps").
pub fn sample_time(format: Format, sample: &Sample) -> Option<u64>
    ensures { result ≡ sample_time format sample.now }
{
    match &sample.stamp {
        Some(stamp) => stamped_time(format, stamp),
        None => None,
    }
}
