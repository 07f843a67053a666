//! The reading of a group (OpenMetrics 1.0, "Metric").
ghost use Rattle.std.specs.Prelude.{◌≡◌, ◌++◌, [], IfOk, OnOk};
ghost use Rattle.std.specs.List.{cons_option};
ghost use Rattle.page_model.specs.Readings.{key_name};
ghost use Rattle.page_model.specs.SuffixNames.{suffix_bytes};
ghost use Rattle.sample_groups.specs.Groups.{reading_named};

use crate::group::Group;
use label_sets::{Kind, LabelSet, Memory, Name, SeriesKey, Text};
use page_model::{Format, Reading, Suffix};
use std::alloc::Global;

/// The family's name and a suffix.
fn with_suffix(alloc: Global, family: &Name, suffix: Suffix) -> Result<Name, Memory>
    ensures { IfOk result (λ name. name ≡ family.now ++ suffix_bytes suffix) }
{
    let mut name = String::from_str(alloc, family.as_str())?;
    name.push_str(suffix.as_str())?;
    Name::from_string(name)
}

/// The name of the keys of a family's readings (OpenMetrics 1.0, "Suffixes").
pub(crate) fn key_name(
    alloc: Global,
    format: Format,
    kind: Kind,
    family: &Name,
) -> Result<Name, Memory>
    ensures { IfOk result (λ name. name ≡ key_name format kind family.now) }
{
    match kind {
        Kind::Counter => match format {
            Format::Text => family.copy(),
            Format::OpenMetrics => with_suffix(alloc, family, Suffix::Total),
        },
        Kind::Info => with_suffix(alloc, family, Suffix::Info),
        _ => family.copy(),
    }
}

/// Puts the reading of a group, where its samples make one, behind others.
pub(crate) fn put_reading(
    alloc: Global,
    kind: Kind,
    name: &Name,
    unit: &Text,
    labels: LabelSet,
    group: Group,
    readings: &mut Vec<Reading>,
) -> Result<(), Memory>
    ensures { OnOk result (readings.new.items ≡ readings.old.items ++ cons_option (reading_named kind name.now unit.now (labels, group)) []) }
{
    let created = group.created_time();
    let stamp = group.time();
    let value = group.value(alloc, kind)?;
    let exemplars = group.into_exemplars(alloc)?;
    let Some(value) = value else {
        drop(labels);
        drop(exemplars);
        return Ok(());
    };
    let name = name.copy()?;
    let unit = unit.copy()?;
    readings.push(Reading {
        key: SeriesKey {
            name,
            kind,
            unit,
            labels,
        },
        value,
        created,
        stamp,
        exemplars,
    })?;
    Ok(())
}
