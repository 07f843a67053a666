//! Tests of `packed_keys`.
use label_sets::{Kind, LabelSet, List, Memory, Name, SeriesKey, Text};
use packed_keys::SeriesPlaces;
use std::alloc::Global;

/// A key of this name and kind.
fn series(alloc: Global, name: &str, kind: Kind) -> Result<SeriesKey, Memory> {
    let name = Name::from_str(alloc, name)?;
    Ok(SeriesKey {
        name,
        kind,
        unit: Text::empty(),
        labels: LabelSet::empty(alloc),
    })
}

/// The places of counters of these names.
fn places_of_counters(alloc: Global, names: &str) -> Result<SeriesPlaces, Memory> {
    let mut keys = Vec::new(alloc);
    for name in names.split_whitespace() {
        keys.push(series(alloc, name, Kind::Counter)?)?;
    }
    Ok(SeriesPlaces::of(alloc, List::from_vec(keys)?))
}

/// The place of a key of this name and kind.
fn place_of(
    alloc: Global,
    places: &mut SeriesPlaces,
    name: &str,
    kind: Kind,
) -> Result<Option<usize>, Memory> {
    let key = series(alloc, name, kind)?;
    let place = places.find(alloc, &key);
    drop(key);
    place
}

// Names and kinds, one after the other, and where each stands among counters of ten names.
const SOUGHT: &[(&str, Kind, Option<usize>)] = &[
    ("f", Kind::Counter, Some(5)),
    ("b", Kind::Gauge, None),
    ("h", Kind::Gauge, None),
    ("b", Kind::Counter, Some(1)),
    ("j", Kind::Counter, Some(9)),
    ("j", Kind::Unknown, None),
    ("k", Kind::Counter, None),
    ("j", Kind::Gauge, None),
    ("a", Kind::Counter, Some(0)),
];

/// How many of the keys stand where they should.
fn right_places(alloc: Global) -> Result<usize, Memory> {
    let mut places = places_of_counters(alloc, "a b c d e f g h i j")?;
    let mut right = 0usize;
    for (name, kind, place) in SOUGHT {
        if place_of(alloc, &mut places, name, *kind) == Ok(*place) {
            right = right.saturating_add(1);
        }
    }
    drop(places);
    Ok(right)
}

#[test]
fn keys_of_a_kind_that_is_lacking_stand_nowhere(rt: HostRuntime) {
    assert!(rt; right_places(rt.alloc()) == Ok(SOUGHT.len()));
}
