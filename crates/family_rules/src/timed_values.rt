//! The values of samples beside their times. Times are kept from the first sample on that has one: most pages have none.
ghost use Rattle.std.specs.Prelude.{◌≡◌, ◌≤◌, ◌+◌, drop, length, OnOk};
ghost use Rattle.std.specs.Vec.Iter.{into_iter_items};
ghost use Rattle.family_rules.specs.TimedValues.{timed_values, keeps_time, with_time, HasRoomForTime, times_to_come, ComesNext};

use exact_decimal::Number;
use label_sets::Memory;
use std::marker::Model;
use std::vec::IntoIter;

/// The value of a sample and the time of its line, in nanoseconds since the Unix epoch.
#[derive(Clone, Copy)]
pub struct TimedValue {
    pub value: Number,
    pub time: Option<u64>,
}

/// Whether a time behind these is kept: where some are, or it is there.
fn is_kept(times: &[Option<u64>], time: Option<u64>) -> bool
    ensures { result ≡ keeps_time times.now time }
{
    !times.is_empty() || time.is_some()
}

/// Makes room for a time more, where it will be kept.
pub(crate) fn make_room_for_time(
    times: &mut Vec<Option<u64>>,
    time: Option<u64>,
) -> Result<(), Memory>
    ensures same { times.new.items ≡ times.old.items }
    ensures room { OnOk result (HasRoomForTime times.new time) }
{
    if is_kept(times.as_slice(), time) {
        return times.reserve(1);
    }
    Ok(())
}

/// Puts a time behind the others, where it is kept.
pub(crate) fn keep_time(times: &mut Vec<Option<u64>>, time: Option<u64>)
    requires { HasRoomForTime times.old time }
    ensures times { times.new.items ≡ with_time times.old.items time }
    ensures few { length times.new.items ≤ length times.old.items + 1 }
{
    if is_kept(times.as_slice(), time) {
        times.push_reserved(time);
    }
}

/// Passes over so many items.
pub(crate) fn pass_over<T: Drop>(items: &mut IntoIter<T>, count: usize)
    ensures { into_iter_items items.new ≡ drop count (into_iter_items items.old) }
{
    for _ in 0..count {
        let _item = items.next();
    }
}

/// The next time, of which so many are absent, where there is one.
fn next_time(bare: &mut usize, times: &mut IntoIter<Option<u64>>) -> Option<Option<u64>>
    ensures { ComesNext result (times_to_come bare.old times.old) (times_to_come bare.new times.new) }
{
    if *bare > 0 {
        *bare -= 1;
        return Some(None);
    }
    times.next()
}

/// Passes over so many times.
fn pass_over_times(bare: &mut usize, times: &mut IntoIter<Option<u64>>, count: usize)
    ensures { times_to_come bare.new times.new ≡ drop count (times_to_come bare.old times.old) }
{
    let rest = count.saturating_sub(*bare);
    let left = (*bare).saturating_sub(count);
    *bare = left;
    pass_over(times, rest);
}

/// Values that are still to come, each with its time.
#[derive(Drop)]
pub(crate) struct TimedLeft {
    values: IntoIter<Number>,
    /// How many values without times come first.
    bare: usize,
    times: IntoIter<Option<u64>>,
}

impl Model for TimedLeft {
    ghost use Rattle.std.specs.Prelude as spec;
    ghost use Rattle.std.specs.Vec.Iter.{into_iter_items};
    ghost use Rattle.family_rules.specs.declared.timed_values.TimedValue.{TimedValue as OneValue};
    ghost use Rattle.family_rules.specs.TimedValues.{paired, times_to_come};

    ghost Value = { spec.List OneValue };

    ghost view = { λ t. paired (into_iter_items t.values) (times_to_come t.bare t.times) };
}

impl TimedLeft {
    /// These values, of which the last have these times.
    pub(crate) fn of(values: Vec<Number>, times: Vec<Option<u64>>) -> TimedLeft
        requires { length times.items ≤ length values.items }
        ensures { result ≡ timed_values values.items times.items }
    {
        let all = values.len();
        let kept = times.len();
        let bare = all - kept;
        TimedLeft {
            values: values.into_iter(),
            bare,
            times: times.into_iter(),
        }
    }

    /// The next value with its time, where there is one.
    #[inline(always)]
    pub(crate) fn next(&mut self) -> Option<TimedValue>
        ensures { ComesNext result self.old self.new }
    {
        let Some(value) = self.values.next() else {
            return None;
        };
        let Some(time) = next_time(&mut self.bare, &mut self.times) else {
            return None;
        };
        Some(TimedValue { value, time })
    }

    /// Passes over so many values.
    pub(crate) fn pass_over(&mut self, count: usize)
        ensures { self.new ≡ drop count self.old }
    {
        pass_over(&mut self.values, count);
        pass_over_times(&mut self.bare, &mut self.times, count);
    }
}
