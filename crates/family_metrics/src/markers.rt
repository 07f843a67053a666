//! Series that are gone, by the metrics that they belong to.
ghost use Rattle.std.specs.Prelude.{◌≡◌, ◌<◌, ◌++◌, ◌∷◌, [], List, length, IfOk, OnOk, OnErr, IfSome, get_or};
ghost use Rattle.std.specs.Option.{option_map_or};
ghost use Rattle.family_metrics.specs.declared.markers.Marker.{Marker as AnyMarker};
ghost use Rattle.family_metrics.specs.MarkerGroups.{marker_groups, identity_bytes, no_group, first_group, with_marker, placed_group, placed_at, IsPlaceOf};

use crate::keyed::{pack, push_keyed};
use byte_table::ByteTable;
use label_sets::{Kind, Memory, SeriesKey};
use std::alloc::Global;
use std::marker::Model;

/// A series that is gone.
#[derive(Drop)]
pub struct Marker {
    pub key: SeriesKey,
    /// The start that it had, in nanoseconds since the Unix epoch, where its kind has starts.
    pub start: Option<u64>,
    /// When it was missed, in nanoseconds since the Unix epoch.
    pub time: u64,
}

/// The markers of one metric, in order.
#[derive(Drop)]
pub(crate) struct MarkerGroup {
    /// The series of the first.
    first: SeriesKey,
    markers: Vec<Marker>,
    /// Whether the page has the metric.
    placed: bool,
}

impl Model for MarkerGroup {
    ghost use Rattle.family_metrics.specs.MarkerGroups.{GroupedMarkers};

    ghost Value = { GroupedMarkers };

    ghost view = { λ g. record { first = g.first; markers = g.markers.items; placed = g.placed } };
}

impl MarkerGroup {
    /// The group of its first marker.
    fn of(alloc: Global, marker: Marker) -> Result<MarkerGroup, Memory>
        ensures { IfOk result (λ g. g ≡ first_group marker) }
    {
        let first = marker.key.copy()?;
        let mut markers = Vec::new(alloc);
        markers.push(marker)?;
        Ok(MarkerGroup {
            first,
            markers,
            placed: false,
        })
    }

    /// Puts a marker behind the others.
    fn add(&mut self, marker: Marker) -> Result<(), Memory>
        ensures added { OnOk result (self.new ≡ with_marker marker self.old) }
        ensures same { OnErr result (self.new ≡ self.old) }
    {
        self.markers.push(marker)?;
        Ok(())
    }

    /// Says that the page has the metric.
    fn place(&mut self)
        ensures { self.new ≡ placed_group self.old }
    {
        self.placed = true;
    }

    /// The series of the first marker.
    pub(crate) fn first(&self) -> &SeriesKey
        ensures { result.now ≡ self.now.first }
    {
        &self.first
    }

    /// The markers.
    pub(crate) fn markers(&self) -> &[Marker]
        ensures { result.now ≡ self.now.markers }
    {
        self.markers.as_slice()
    }

    /// Whether the page has the metric.
    pub(crate) fn is_placed(&self) -> bool
        ensures { result ≡ self.now.placed }
    {
        self.placed
    }
}

/// Markers by their metrics, in the order of their first markers. A metric is found by its bytes.
#[derive(Drop)]
pub(crate) struct MarkerGroups {
    identities: ByteTable,
    groups: Vec<MarkerGroup>,
    /// The room in which an identity is packed.
    packed: Vec<u8>,
}

impl Model for MarkerGroups {
    ghost use Rattle.std.specs.Prelude as spec;
    ghost use Rattle.std.specs.Prelude.{◌≡◌};
    ghost use Rattle.family_metrics.specs.MarkerGroups.{GroupedMarkers as Grouped, group_identity as identity_in};

    ghost Value = { spec.List Grouped };

    ghost view = { λ g. g.groups.items };

    ghost invariant = { λ g. g.identities ≡ spec.map identity_in g.groups.items };
}

impl MarkerGroups {
    /// No markers. It takes no memory.
    fn new(alloc: Global) -> MarkerGroups
        ensures { result ≡ [] }
    {
        MarkerGroups {
            identities: ByteTable::new(alloc),
            groups: Vec::new(alloc),
            packed: Vec::new(alloc),
        }
    }

    /// These markers by their metrics.
    pub(crate) fn of(alloc: Global, markers: Vec<Marker>) -> Result<MarkerGroups, Memory>
        ensures { IfOk result (λ groups. groups ≡ marker_groups [] markers.items) }
    {
        let mut groups = MarkerGroups::new(alloc);
        for marker in markers {
            groups.add(alloc, marker)?;
        }
        Ok(groups)
    }

    /// The groups in order.
    pub(crate) fn as_slice(&self) -> &[MarkerGroup]
        ensures { result.now ≡ self.now }
    {
        self.groups.as_slice()
    }

    /// The place of a metric's markers, where there are any.
    pub(crate) fn place_of(
        &mut self,
        name: &[u8],
        kind: Kind,
        unit: &[u8],
    ) -> Result<Option<usize>, Memory>
        ensures same { self.new ≡ self.old }
        ensures place { IfOk result (IsPlaceOf (identity_bytes name.now kind unit.now) self.old) }
    {
        if self.identities.is_empty() {
            return Ok(None);
        }
        pack(&mut self.packed, name, kind, unit)?;
        Ok(self.identities.find(self.packed.as_slice()))
    }

    /// Puts a marker behind those of its metric.
    fn add(&mut self, alloc: Global, marker: Marker) -> Result<(), Memory>
        ensures { OnOk result ((ms : List AnyMarker) → self.old ≡ marker_groups [] ms → self.new ≡ marker_groups [] (ms ++ marker ∷ [])) }
    {
        let key = &marker.key;
        pack(
            &mut self.packed,
            key.name.as_bytes(),
            key.kind,
            key.unit.as_bytes(),
        )?;
        match self.identities.find(self.packed.as_slice()) {
            Some(place) => self.groups[place].add(marker)?,
            None => {
                let group = MarkerGroup::of(alloc, marker)?;
                push_keyed(
                    &mut self.identities,
                    &mut self.groups,
                    self.packed.as_slice(),
                    group,
                )?;
            }
        }
        Ok(())
    }

    /// The markers at a place, where there is one.
    pub(crate) fn markers_at(&self, place: Option<usize>) -> &[Marker]
        requires { IfSome place (λ at. at < length self.now) }
        ensures { result.now ≡ option_map_or (λ at. (get_or self.now at no_group).markers) place [] }
    {
        match place {
            Some(at) => self.groups[at].markers(),
            None => &[],
        }
    }

    /// Says of the markers at a place, where there is one, whether the page has their metric.
    pub(crate) fn set_placed(&mut self, place: Option<usize>, is_there: bool)
        requires { IfSome place (λ at. at < length self.old) }
        ensures { self.new ≡ placed_at is_there place self.old }
    {
        if is_there {
            if let Some(at) = place {
                self.groups[at].place();
            }
        }
    }
}
