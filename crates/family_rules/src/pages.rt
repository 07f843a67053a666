//! The families and readings of a page, from what was kept of its lines (OpenMetrics 1.0, "Data Model").
ghost use Rattle.std.specs.Prelude.{◌≡◌, ◌++◌, [], drop, filter_map, unwrap_or, IfOk, OnOk, if◌then◌else◌};
ghost use Rattle.sample_groups.specs.Groups.{reading_from};
ghost use Rattle.sample_groups.specs.Parts.{is_grouped};
ghost use Rattle.family_rules.specs.Made.{plain_reading, readings_at, family_at, families_at};

use crate::family::FamilySoFar;
use crate::keyed_values::KeyedEntries;
use crate::left::{LeftEntries, LeftFamilies};
use crate::timed_values::TimedValue;
use label_sets::{Kind, List, Memory, Name, SeriesKey, Text};
use packed_keys::SampleKey;
use page_model::{Family, Format, Reading, Value};
use sample_groups::{Groups, is_grouped};
use std::alloc::Global;

/// The text, or the empty one.
fn text_or_empty(text: Option<Text>) -> Text
    ensures { result ≡ unwrap_or text [] }
{
    match text {
        Some(text) => text,
        None => Text::empty(),
    }
}

/// The reading of a sample, which may have no exemplar.
#[inline(always)]
fn reading(alloc: Global, kind: Kind, unit: Text, key: SampleKey, value: TimedValue) -> Reading
    ensures { result ≡ plain_reading kind unit key value }
{
    Reading {
        key: SeriesKey {
            name: key.name,
            kind,
            unit,
            labels: key.labels,
        },
        value: Value::Plain(value.value),
        created: None,
        stamp: value.time,
        exemplars: List::new(alloc),
    }
}

/// The readings of so many samples, which come next.
fn readings(
    alloc: Global,
    kind: Kind,
    unit: &Text,
    count: u32,
    samples: &mut KeyedEntries,
) -> Result<Vec<Reading>, Memory>
    ensures readings { IfOk result (λ readings. readings.items ≡ readings_at kind unit.now count samples.old) }
    ensures rest { OnOk result (samples.new ≡ drop count samples.old) }
{
    let mut readings = Vec::with_capacity(alloc, count as usize)?;
    for _ in 0..count {
        let next = samples.next(alloc)?;
        let Some((key, value)) = next else {
            return Ok(readings);
        };
        let unit = unit.copy()?;
        readings.push_reserved(reading(alloc, kind, unit, key, value));
    }
    Ok(readings)
}

/// The readings of a family of this kind: of its groups, where the kind has groups, else of so many samples. These
/// come next.
fn family_readings(
    alloc: Global,
    format: Format,
    kind: Kind,
    name: &Name,
    unit: &Text,
    groups: Groups,
    count: u32,
    samples: &mut KeyedEntries,
) -> Result<List<Reading>, Memory>
    ensures readings { IfOk result (λ list. list ≡ (if is_grouped format kind then filter_map (reading_from format kind name.now unit.now) groups else readings_at kind unit.now count samples.old)) }
    ensures rest { OnOk result (samples.new ≡ drop count samples.old) }
{
    if is_grouped(format, kind) {
        samples.pass_over(count as usize);
        return groups.into_readings(alloc, format, kind, name, unit);
    }
    let readings = readings(alloc, kind, unit, count, samples)?;
    List::from_vec(readings)
}

/// The family of what is known of it; its samples come next.
fn family(
    alloc: Global,
    format: Format,
    name: Name,
    known: FamilySoFar,
    samples: &mut KeyedEntries,
) -> Result<Family, Memory>
    ensures family { IfOk result (λ family. family ≡ family_at format name known samples.old) }
    ensures rest { OnOk result (samples.new ≡ drop known.samples samples.old) }
{
    let kind = known.kind();
    let help = text_or_empty(known.help);
    let unit = text_or_empty(known.unit.into_text());
    let readings = family_readings(
        alloc,
        format,
        kind,
        &name,
        &unit,
        known.groups,
        known.samples,
        samples,
    )?;
    Ok(Family {
        name,
        kind,
        help,
        unit,
        readings,
    })
}

/// Puts the families of what is known of each behind others, for which there is room at first; their samples stand one
/// family behind the other.
fn put_families(
    alloc: Global,
    format: Format,
    room: usize,
    known: &mut LeftEntries,
    samples: &mut KeyedEntries,
    families: &mut Vec<Family>,
) -> Result<(), Memory>
    ensures { OnOk result (families.new.items ≡ families.old.items ++ families_at format known.old samples.old) }
{
    families.reserve(room)?;
    loop {
        let next = known.next(alloc)?;
        let Some((name, so_far)) = next else {
            return Ok(());
        };
        let family = family(alloc, format, name, so_far, samples)?;
        families.push(family)?;
    }
}

/// The families of what is known of each, in their order; their samples stand one family behind the other.
///
/// # Errors
///
/// Want of memory.
pub fn families_in(
    alloc: Global,
    format: Format,
    known: LeftFamilies,
    samples: KeyedEntries,
) -> Result<List<Family>, Memory>
    ensures { IfOk result (λ families. families ≡ families_at format known samples) }
{
    let room = known.len();
    let mut families = Vec::new(alloc);
    let mut entries = known.into_entries();
    let mut samples = samples;
    match put_families(
        alloc,
        format,
        room,
        &mut entries,
        &mut samples,
        &mut families,
    ) {
        Ok(()) => {
            drop(entries);
            drop(samples);
            List::from_vec(families)
        }
        Err(fault) => {
            drop(entries);
            drop(samples);
            drop(families);
            Err(fault)
        }
    }
}
