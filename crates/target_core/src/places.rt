//! What the readings of series without a past give.
ghost use Rattle.std.specs.Prelude.{◌≡◌, ◌++◌, map, IfOk, OnOk};
ghost use Rattle.page_model.specs.Presence.{all_readings};
ghost use Rattle.target_core.specs.Events as events;

use label_sets::Memory;
use page_model::{Page, Reading};
use start_times::{Placed, created_at, has_points, time_of};
use std::alloc::Global;

/// What a reading of a series without a past gives, where its kind has points: a point that begins when the page says
/// that the series was created, else with itself.
#[tactic(auto, unfolding(crate::specs::Events::first_place))]
fn first_place(honor: bool, moment: u64, reading: &Reading) -> Option<Placed>
    ensures { result ≡ events.first_place honor moment reading.now }
{
    if !has_points(reading.key.kind) {
        return None;
    }
    let time = time_of(honor, moment, reading);
    let start = created_at(time, reading).unwrap_or(time);
    Some(Placed::At { time, start })
}

/// Puts what readings of series without a past give behind others.
fn push_places(
    places: &mut Vec<Option<Placed>>,
    honor: bool,
    moment: u64,
    readings: &[Reading],
) -> Result<(), Memory>
    ensures { OnOk result (places.new.items ≡ places.old.items ++ map (events.first_place honor moment) readings.now) }
{
    for reading in readings {
        places.push(first_place(honor, moment, reading))?;
    }
    Ok(())
}

/// What a page's readings give, where their series have no past, in page order.
pub(crate) fn first_places(
    alloc: Global,
    honor: bool,
    moment: u64,
    page: &Page,
) -> Result<Vec<Option<Placed>>, Memory>
    ensures { IfOk result (λ places. places.items ≡ map (events.first_place honor moment) (all_readings page.now)) }
{
    let families = page.families().as_slice();
    let mut places = Vec::with_capacity(alloc, page.samples() as usize)?;
    for family in families {
        push_places(&mut places, honor, moment, family.readings.as_slice())?;
    }
    Ok(places)
}
