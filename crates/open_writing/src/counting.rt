//! How many sample lines families have.

ghost use Rattle.std.specs.Prelude.{◌≡◌, ◌^◌, ◌<◌};
ghost use Rattle.std.specs.List.{sum_by};
ghost use Rattle.open_writing.specs.Pieces.{family_lines, option_count, reading_lines, value_lines};

use page_model::{Family, Reading, Value};

/// How many values an option has.
fn count_of<T>(value: &Option<T>) -> u32
    ensures { result ≡ option_count value.now }
{
    match value {
        Some(_) => 1,
        None => 0,
    }
}

/// How many sample lines a value has.
fn lines_of_value(value: &Value) -> u32
    requires few { value_lines value.now < 2 ^ 32 }
    ensures { result ≡ value_lines value.now }
{
    match value {
        Value::Plain(_) => 1,
        Value::Buckets { buckets, sum } => buckets.len() as u32 + 2 * count_of(sum),
        Value::Quantiles { list, count, sum } => {
            list.len() as u32 + (count_of(count) + count_of(sum))
        }
    }
}

/// How many sample lines a reading has.
fn lines_of_reading(reading: &Reading) -> u32
    requires few { reading_lines reading.now < 2 ^ 32 }
    ensures { result ≡ reading_lines reading.now }
{
    lines_of_value(&reading.value) + count_of(&reading.created)
}

/// How many sample lines a family has.
fn lines_of_family(family: &Family) -> u32
    requires few { family_lines family.now < 2 ^ 32 }
    ensures { result ≡ family_lines family.now }
{
    let readings = family.readings.as_slice();
    let mut lines = 0;
    for reading in readings {
        lines += lines_of_reading(reading);
    }
    lines
}

/// How many sample lines families have.
pub(crate) fn lines_of_families(families: &[Family]) -> u32
    requires few { sum_by family_lines families.now < 2 ^ 32 }
    ensures { result ≡ sum_by family_lines families.now }
{
    let mut lines = 0;
    for family in families {
        lines += lines_of_family(family);
    }
    lines
}
