//! Names, labels and keys as bytes: the length of each part stands before it.
ghost use Rattle.std.specs.Prelude.{◌≡◌, ◌++◌, length, OnOk, IsUtf8};
ghost use Rattle.label_sets.specs.Keys.{kind_place};
ghost use Rattle.label_sets.specs.Labels.{without_label};
ghost use Rattle.packed_keys.specs.Packing.{length_code, part_bytes, label_bytes, labels_bytes, key_bytes, series_bytes};
ghost use Rattle.packed_keys.specs.Texts.{IsTextLabel, IsTextSet, IsTextKey};

use crate::sample_key::SampleKey;
use label_sets::{Kind, Label, LabelSet, Memory, SeriesKey};

/// Adds the code of a length, whatever it is.
#[cold]
fn put_any_length(out: &mut Vec<u8>, length: usize) -> Result<(), Memory>
    ensures { OnOk result (out.new.items ≡ out.old.items ++ length_code length) }
{
    let mut left = length;
    while left >= 255 {
        out.push(255)?;
        left -= 255;
    }
    out.push(left as u8)?;
    Ok(())
}

/// Adds the code of a length, which mostly is one byte.
#[inline(always)]
fn put_length(out: &mut Vec<u8>, length: usize) -> Result<(), Memory>
    ensures { OnOk result (out.new.items ≡ out.old.items ++ length_code length) }
{
    if length >= 255 {
        return put_any_length(out, length);
    }
    out.push(length as u8)?;
    Ok(())
}

/// Adds a text, behind its length.
#[inline(always)]
fn put_text(out: &mut Vec<u8>, text: &str) -> Result<(), Memory>
    ensures added { OnOk result (out.new.items ≡ out.old.items ++ part_bytes text.now) }
    ensures text { IsUtf8 text.now }
{
    put_length(out, text.len())?;
    out.extend_from_slice(text.as_bytes())?;
    Ok(())
}

/// Adds a label: its name, then its value.
#[inline(always)]
fn put_label(out: &mut Vec<u8>, label: &Label) -> Result<(), Memory>
    ensures added { OnOk result (out.new.items ≡ out.old.items ++ label_bytes label.now) }
    ensures text { OnOk result (IsTextLabel label.now) }
{
    put_text(out, label.name.as_str())?;
    put_text(out, label.value.as_str())
}

/// Adds the labels of a set, behind their number.
pub(crate) fn put_labels(out: &mut Vec<u8>, labels: &LabelSet) -> Result<(), Memory>
    ensures added { OnOk result (out.new.items ≡ out.old.items ++ labels_bytes labels.now) }
    ensures text { OnOk result (IsTextSet labels.now) }
{
    labels.in_order();
    put_length(out, labels.len())?;
    for label in labels.labels() {
        put_label(out, label)?;
    }
    Ok(())
}

/// How many labels have another name.
fn count_without(labels: &[Label], name: &[u8]) -> usize
    ensures { result ≡ length (without_label name.now labels.now) }
{
    labels
        .iter()
        .filter(|label| label.name.as_bytes() != name)
        .count()
}

/// Adds the labels of a set but the one of this name, behind their number.
pub(crate) fn put_labels_without(
    out: &mut Vec<u8>,
    labels: &LabelSet,
    name: &[u8],
) -> Result<(), Memory>
    ensures added { OnOk result (out.new.items ≡ out.old.items ++ labels_bytes (without_label name.now labels.now)) }
    ensures text { OnOk result (IsTextSet (without_label name.now labels.now)) }
{
    labels.in_order();
    put_length(out, count_without(labels.labels(), name))?;
    for label in labels.labels() {
        if label.name.as_bytes() != name {
            put_label(out, label)?;
        }
    }
    Ok(())
}

/// Adds a key: its name, then its labels.
pub(crate) fn put_key(out: &mut Vec<u8>, key: &SampleKey) -> Result<(), Memory>
    ensures added { OnOk result (out.new.items ≡ out.old.items ++ key_bytes key.now) }
    ensures text { OnOk result (IsTextKey key.now) }
{
    put_text(out, key.name.as_str())?;
    put_labels(out, &key.labels)
}

/// The place of a kind, as a byte.
pub fn kind_byte(kind: Kind) -> u8
    ensures { result ≡ kind_place kind }
{
    match kind {
        Kind::Counter => 0,
        Kind::Gauge => 1,
        Kind::Histogram => 2,
        Kind::GaugeHistogram => 3,
        Kind::StateSet => 4,
        Kind::Info => 5,
        Kind::Summary => 6,
        Kind::Unknown => 7,
    }
}

/// Adds the key of a series: its kind, its name, its unit, then its labels.
pub(crate) fn put_series(out: &mut Vec<u8>, key: &SeriesKey) -> Result<(), Memory>
    ensures { OnOk result (out.new.items ≡ out.old.items ++ series_bytes key.now) }
{
    out.push(kind_byte(key.kind))?;
    put_text(out, key.name.as_str())?;
    put_text(out, key.unit.as_str())?;
    put_labels(out, &key.labels)
}
