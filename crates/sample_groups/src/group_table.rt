//! The groups of a family that has several, found by their labels.
ghost use Rattle.std.specs.Prelude.{◌≡◌, ◌<◌, [], ◌∷◌, ◌++◌, length, slice_get, vec_len, filter_map, None, Some, IfOk, OnOk, OnErr, IfSome};
ghost use Rattle.std.specs.List.{list_all, zip};
ghost use Rattle.std.specs.Vec.{vec_capacity};
ghost use Rattle.label_sets.specs.declared.label_set.LabelSet.{LabelSet as Labels};
ghost use Rattle.label_sets.specs.Labels.{label_sets_eq};
ghost use Rattle.sample_groups.specs.Beside.{AreBeside};
ghost use Rattle.sample_groups.specs.Groups.{Gathered, empty_group, AddsPart, is_overtaken, is_whole_group, known_group, reading_named, shared_labels};
ghost use Rattle.sample_groups.specs.LastSeen.{EndsWith};
ghost use Rattle.sample_groups.specs.Members.{member_behind};
ghost use Rattle.sample_groups.specs.Placing.{HasPlace};

use crate::added::Added;
use crate::group::Group;
use crate::group_labels::GroupLabels;
use crate::member::MemberRef;
use crate::reading::put_reading;
use crate::shared::{are_shared, shared_labels};
use label_sets::{Kind, LabelSet, List, Memory, Name, Text};
use packed_keys::SeenKeys;
use page_model::Reading;
use std::alloc::Global;
use std::marker::Model;

/// A group's place and its labels.
#[derive(Drop)]
struct CachedGroup {
    place: usize,
    labels: LabelSet,
}

/// Groups, each by the labels that its samples share, in the order of their first lines.
#[derive(Drop)]
pub(crate) struct GroupTable {
    sets: GroupLabels,
    groups: Vec<Group>,
    /// The group of the last member: the next one is mostly of the same group.
    nearest: Option<CachedGroup>,
}

impl Model for GroupTable {
    ghost use Rattle.std.specs.Prelude as spec;
    ghost use Rattle.std.specs.List.{zip};
    ghost use Rattle.label_sets.specs.declared.label_set.LabelSet.{LabelSet as Shared};
    ghost use Rattle.sample_groups.specs.Groups.{Gathered as Kept};
    ghost use Rattle.label_sets.specs.Labels.{label_sets_eq};
    ghost use Rattle.sample_groups.specs.Beside.{AreBeside};
    ghost use Rattle.sample_groups.specs.Nearest.{IsNearest};

    ghost Value = { spec.List (Shared × Kept) };

    ghost view = { λ o. zip o.sets o.groups.items };

    ghost invariant = { λ o. AreBeside label_sets_eq o.sets o.groups.items × spec.IfSome o.nearest (IsNearest o.sets) };
}

/// Whether each of the groups is whole.
fn all_whole(groups: &[Group]) -> bool
    ensures { result ≡ list_all is_whole_group groups.now }
{
    for group in groups {
        if !group.is_whole() {
            return false;
        }
    }
    true
}

/// Puts the readings of groups, whose labels are these, behind others.
fn put_all(
    alloc: Global,
    kind: Kind,
    name: &Name,
    unit: &Text,
    sets: &GroupLabels,
    groups: Vec<Group>,
    readings: &mut Vec<Reading>,
) -> Result<(), Memory>
    requires { length sets.now ≡ length groups.items }
    ensures { OnOk result (readings.new.items ≡ readings.old.items ++ filter_map (reading_named kind name.now unit.now) (zip sets.now groups.items)) }
{
    let mut place = 0;
    for group in groups {
        let labels = sets.set(alloc, place)?;
        put_reading(alloc, kind, name, unit, labels, group, readings)?;
        place += 1;
    }
    Ok(())
}

/// Puts a group behind the others.
fn put(groups: &mut Vec<Group>, group: Group)
    requires { vec_len groups.old < vec_capacity groups.old }
    ensures { groups.new.items ≡ groups.old.items ++ group ∷ [] }
{
    groups.push_reserved(group);
}

/// Puts a group without parts behind the others, where the place is there.
fn put_new(groups: &mut Vec<Group>, place: usize)
    requires { vec_len groups.old < vec_capacity groups.old }
    ensures new { place ≡ length groups.old.items → groups.new.items ≡ groups.old.items ++ empty_group ∷ [] }
    ensures other { (place ≡ length groups.old.items → ⊥) → groups.new.items ≡ groups.old.items }
{
    if place == groups.len() {
        put(groups, Group::new());
    }
}

/// The place of a sample's group, which is a new one behind the others where there was none.
fn place_in(
    alloc: Global,
    sets: &mut GroupLabels,
    groups: &mut Vec<Group>,
    kind: Kind,
    labels: &LabelSet,
) -> Result<usize, Memory>
    requires { AreBeside label_sets_eq sets.old groups.old.items }
    ensures place { IfOk result (HasPlace (zip sets.old groups.old.items) (zip sets.new groups.new.items) (shared_labels kind labels.now)) }
    ensures beside { OnOk result (AreBeside label_sets_eq sets.new groups.new.items) }
    ensures set { IfOk result (λ place. slice_get sets.new place ≡ Some (shared_labels kind labels.now)) }
    ensures err { OnErr result ((sets.new ≡ sets.old) × (groups.new.items ≡ groups.old.items)) }
{
    // So that nothing can fail behind the set.
    groups.reserve(1)?;
    let place = sets.insert(alloc, kind, labels)?;
    put_new(groups, place);
    Ok(place)
}

impl GroupTable {
    /// No groups. It takes no memory. `shared` says that labels of groups that begin live on beside these.
    pub(crate) fn new(alloc: Global, shared: bool) -> GroupTable
        ensures { result ≡ [] }
    {
        GroupTable {
            sets: GroupLabels::new(alloc, shared),
            groups: Vec::new(alloc),
            nearest: None,
        }
    }

    /// The place of the nearest group, where it is the sample's. It takes no memory.
    fn nearest_place(&self, kind: Kind, labels: &LabelSet) -> Option<usize>
        ensures { IfSome result (HasPlace self.now self.now (shared_labels kind labels.now)) }
    {
        match &self.nearest {
            Some(nearest) if are_shared(kind, labels, &nearest.labels) => Some(nearest.place),
            _ => None,
        }
    }

    /// The place of a sample's group, which is a new one behind the others where there was none.
    fn place_of(&mut self, alloc: Global, kind: Kind, labels: &LabelSet) -> Result<usize, Memory>
        ensures { IfOk result (HasPlace self.old self.new (shared_labels kind labels.now)) }
    {
        let shared = shared_labels(alloc, kind, labels)?;
        let place = place_in(alloc, &mut self.sets, &mut self.groups, kind, labels)?;
        self.nearest = Some(CachedGroup {
            place,
            labels: shared,
        });
        Ok(place)
    }

    /// The place of the group of these labels, looked for at the nearest place first.
    fn place_from(&mut self, alloc: Global, kind: Kind, labels: &LabelSet) -> Result<usize, Memory>
        ensures { IfOk result (HasPlace self.old self.new (shared_labels kind labels.now)) }
    {
        match self.nearest_place(kind, labels) {
            Some(place) => Ok(place),
            None => self.place_of(alloc, kind, labels),
        }
    }

    /// Puts a group behind the others, whose labels are those of none.
    pub(crate) fn push(
        &mut self,
        labels: &LabelSet,
        group: Group,
        seen: Option<&SeenKeys>,
    ) -> Result<(), Memory>
        requires new { known_group self.old labels.now ≡ None }
        requires seen { IfSome seen (λ keys. EndsWith keys.now labels.now) }
        ensures { OnOk result (self.new ≡ self.old ++ (labels.now, group) ∷ []) }
    {
        let nearest = CachedGroup {
            place: self.groups.len(),
            labels: labels.copy()?,
        };
        // So that nothing can fail behind the set.
        self.groups.reserve(1)?;
        self.sets.push(labels, seen)?;
        put(&mut self.groups, group);
        self.nearest = Some(nearest);
        Ok(())
    }

    /// Adds what a sample of this kind with these labels gives to its group, unless its part breaks the order
    /// of the group.
    pub(crate) fn add(
        &mut self,
        alloc: Global,
        kind: Kind,
        labels: &LabelSet,
        member: &MemberRef<'_>,
    ) -> Result<Added, Memory>
        ensures { IfOk result (AddsPart kind labels.now (member_behind member.now) self.old self.new) }
    {
        let place = self.place_from(alloc, kind, labels)?;
        let count = self.groups.len();
        let overtaken = place + 1 < count;
        let fits = self.groups[place].add(alloc, member)?;
        Ok(Added { fits, overtaken })
    }

    /// Whether the group of a sample of this kind with these labels is overtaken. Nothing is said of the groups
    /// any more.
    pub(crate) fn is_overtaken(
        &mut self,
        alloc: Global,
        kind: Kind,
        labels: &LabelSet,
    ) -> Result<bool, Memory>
        ensures { IfOk result (λ overtaken. overtaken ≡ is_overtaken self.old (shared_labels kind labels.now)) }
    {
        let place = self.place_from(alloc, kind, labels)?;
        let count = self.groups.len();
        Ok(place + 1 < count)
    }

    /// Whether each group of a histogram is whole.
    pub(crate) fn are_whole(&self) -> bool
        ensures { result ≡ list_all (λ (g : Labels × Gathered). is_whole_group g.1) self.now }
    {
        all_whole(self.groups.as_slice())
    }

    /// The readings of the groups, in their order.
    pub(crate) fn into_readings(
        self,
        alloc: Global,
        kind: Kind,
        name: &Name,
        unit: &Text,
    ) -> Result<List<Reading>, Memory>
        ensures { IfOk result (λ readings. readings ≡ filter_map (reading_named kind name.now unit.now) self) }
    {
        let mut readings = match Vec::with_capacity(alloc, self.groups.len()) {
            Ok(readings) => readings,
            Err(fault) => {
                drop(self);
                return Err(fault);
            }
        };
        let GroupTable {
            sets,
            groups,
            nearest,
        } = self;
        drop(nearest);
        let put = put_all(alloc, kind, name, unit, &sets, groups, &mut readings);
        drop(sets);
        put?;
        let readings = List::from_vec(readings)?;
        Ok(readings)
    }
}
