//! The groups of one family, in the order of their first lines.
ghost use Rattle.std.specs.Prelude.{◌≡◌, [], ◌∷◌, ◌++◌, true, not, filter_map, None, IfOk, IfSome, IfNone, OnOk};
ghost use Rattle.std.specs.List.{list_all};
ghost use Rattle.label_sets.specs.declared.label_set.LabelSet.{LabelSet as Labels};
ghost use Rattle.sample_groups.specs.Families.{only_in, groups_in};
ghost use Rattle.sample_groups.specs.LastSeen.{EndsWith};
ghost use Rattle.sample_groups.specs.Members.{member_behind};
ghost use Rattle.sample_groups.specs.Groups.{Gathered, with_part, known_group, or_empty, AddsPart, breaks_order, is_overtaken, is_whole_group, reading_from, reading_named, shared_labels};

use crate::added::Added;
use crate::group::Group;
use crate::group_table::GroupTable;
use crate::member::MemberRef;
use crate::reading::{key_name, put_reading};
use crate::shared::{are_shared, shared_labels};
use label_sets::{Kind, LabelSet, List, Memory, Name, Text};
use packed_keys::SeenKeys;
use page_model::{Format, Reading};
use std::alloc::Global;
use std::marker::Model;
use std::mem;

/// A family's only group, and the labels that its samples share.
#[derive(Drop)]
struct OnlyGroup {
    labels: LabelSet,
    group: Group,
}

/// Where the groups lie.
#[derive(Drop)]
enum Store {
    /// A family without groups takes no memory.
    Nothing,
    /// Many families have one: it takes no table.
    One(Box<OnlyGroup>),
    Many(Box<GroupTable>),
}

/// The groups of one family's samples, each by the labels that its samples share.
#[derive(Drop)]
pub struct Groups {
    store: Store,
}

// Each family of a page holds one.
const _: () = prove!(mem::size_of::<Groups>() <= 16);

impl Model for Groups {
    ghost use Rattle.std.specs.Prelude as spec;
    ghost use Rattle.label_sets.specs.declared.label_set.LabelSet.{LabelSet as Shared};
    ghost use Rattle.sample_groups.specs.Groups.{Gathered as Kept};
    ghost use Rattle.sample_groups.specs.Families.{groups_in};

    ghost Value = { spec.List (Shared × Kept) };

    ghost view = { λ g. groups_in g.store };
}

/// Puts a store in place of another.
fn put(store: &mut Store, new: Store)
    ensures { store.new ≡ new }
{
    drop(mem::replace(store, new));
}

/// A table with a family's only group, which is taken out. `shared` says that labels of groups live on beside them.
fn table_of(alloc: Global, only: &mut OnlyGroup, shared: bool) -> Result<GroupTable, Memory>
    ensures { IfOk result (λ table. table ≡ only_in only.old) }
{
    let mut table = GroupTable::new(alloc, shared);
    let group = mem::replace(&mut only.group, Group::new());
    match table.push(&only.labels, group, None) {
        Ok(()) => Ok(table),
        Err(fault) => {
            drop(table);
            Err(fault)
        }
    }
}

/// Puts a group behind the others, whose labels are those of none.
fn push_in(
    alloc: Global,
    store: &mut Store,
    labels: &LabelSet,
    group: Group,
    seen: Option<&SeenKeys>,
) -> Result<(), Memory>
    requires seen { IfSome seen (λ keys. EndsWith keys.now labels.now) }
    requires new { known_group (groups_in store.old) labels.now ≡ None }
    ensures { OnOk result (groups_in store.new ≡ groups_in store.old ++ (labels.now, group) ∷ []) }
{
    match store {
        Store::Nothing => {
            let labels = labels.copy()?;
            let only = Box::new(alloc, OnlyGroup { labels, group })?;
            put(store, Store::One(only));
            Ok(())
        }
        Store::One(only) => {
            let mut table = table_of(alloc, only, seen.is_none())?;
            match table.push(labels, group, seen) {
                Ok(()) => {
                    put(store, Store::Many(Box::new(alloc, table)?));
                    Ok(())
                }
                Err(fault) => {
                    drop(table);
                    Err(fault)
                }
            }
        }
        Store::Many(table) => table.push(labels, group, seen),
    }
}

/// Adds what a sample of this kind with these labels gives to a family's only group, unless its part breaks the order of
/// the group. Nothing is answered, and nothing done, where the sample is of another group.
fn add_to(
    alloc: Global,
    only: &mut OnlyGroup,
    kind: Kind,
    labels: &LabelSet,
    member: &MemberRef<'_>,
) -> Result<Option<Added>, Memory>
    ensures own { IfOk result (λ added. IfSome added (AddsPart kind labels.now (member_behind member.now) (only_in only.old) (only_in only.new))) }
    ensures new { IfOk result (λ added. IfNone added (known_group (only_in only.old) (shared_labels kind labels.now) ≡ None)) }
    ensures same { IfOk result (λ added. IfNone added (only_in only.new ≡ only_in only.old)) }
{
    if are_shared(kind, labels, &only.labels) {
        let fits = only.group.add(alloc, member)?;
        return Ok(Some(Added {
            fits,
            overtaken: false,
        }));
    }
    Ok(None)
}

/// Adds what a sample of this kind with these labels gives to its group, unless its part breaks the order of the group.
/// Nothing is answered, and nothing done, where it is plain that its group has not begun.
fn add_in(
    alloc: Global,
    store: &mut Store,
    kind: Kind,
    labels: &LabelSet,
    member: &MemberRef<'_>,
) -> Result<Option<Added>, Memory>
    ensures own { IfOk result (λ added. IfSome added (AddsPart kind labels.now (member_behind member.now) (groups_in store.old) (groups_in store.new))) }
    ensures new { IfOk result (λ added. IfNone added (known_group (groups_in store.old) (shared_labels kind labels.now) ≡ None)) }
    ensures same { IfOk result (λ added. IfNone added (groups_in store.new ≡ groups_in store.old)) }
{
    match store {
        Store::Nothing => Ok(None),
        Store::One(only) => add_to(alloc, only, kind, labels, member),
        Store::Many(table) => {
            let added = table.add(alloc, kind, labels, member)?;
            Ok(Some(added))
        }
    }
}

/// The reading of a family's only group, where its samples make one.
fn only_reading(
    alloc: Global,
    kind: Kind,
    name: &Name,
    unit: &Text,
    only: OnlyGroup,
) -> Result<List<Reading>, Memory>
    ensures { IfOk result (λ readings. readings ≡ filter_map (reading_named kind name.now unit.now) (only_in only)) }
{
    let mut readings = match Vec::with_capacity(alloc, 1) {
        Ok(readings) => readings,
        Err(fault) => {
            drop(only);
            return Err(fault);
        }
    };
    let OnlyGroup { labels, group } = only;
    put_reading(alloc, kind, name, unit, labels, group, &mut readings)?;
    let readings = List::from_vec(readings)?;
    Ok(readings)
}

impl Groups {
    /// No groups. It takes no memory.
    pub fn new(_alloc: Global) -> Groups
        ensures { result ≡ [] }
    {
        Groups {
            store: Store::Nothing,
        }
    }

    /// Begins a group with what a sample gives whose labels are those of no group. All labels of the sample are the
    /// group's: none tells it apart from others of its group, as with counters. They are packed already
    /// where a key was `seen` last that has them; otherwise they live on beside the groups, and are shared.
    /// Nothing is said of the groups any more where memory was wanted.
    ///
    /// # Errors
    ///
    /// Want of memory.
    pub fn begin(
        &mut self,
        alloc: Global,
        labels: &LabelSet,
        member: &MemberRef<'_>,
        seen: Option<&SeenKeys>,
    ) -> Result<(), Memory>
        requires seen { IfSome seen (λ keys. EndsWith keys.now labels.now) }
        requires new { known_group self.old labels.now ≡ None }
        ensures { OnOk result (self.new ≡ with_part self.old labels.now (member_behind member.now)) }
    {
        let group = Group::of(alloc, member)?;
        push_in(alloc, &mut self.store, labels, group, seen)
    }

    /// Adds what a sample with these labels gives to its group, unless its part breaks the order of the group: a
    /// bucket that isn't above the last one, or has fewer observations, or a quantile that the group has
    /// already. Where it was not added, nothing is said of the groups any more. Also answers whether the
    /// group is overtaken.
    ///
    /// # Errors
    ///
    /// Want of memory. A part that breaks the order of its group is no error: the answer tells it.
    pub fn add(
        &mut self,
        alloc: Global,
        kind: Kind,
        labels: &LabelSet,
        member: &MemberRef<'_>,
    ) -> Result<Added, Memory>
        ensures answer { IfOk result (λ added. added.fits ≡ not (breaks_order (or_empty (known_group self.old (shared_labels kind labels.now))) member.now.part.now)) }
        ensures overtaken { IfOk result (λ added. added.overtaken ≡ is_overtaken self.old (shared_labels kind labels.now)) }
        ensures added { IfOk result (λ added. added.fits ≡ true → self.new ≡ with_part self.old (shared_labels kind labels.now) (member_behind member.now)) }
    {
        let known = add_in(alloc, &mut self.store, kind, labels, member)?;
        match known {
            Some(added) => Ok(added),
            None => {
                let shared = shared_labels(alloc, kind, labels)?;
                self.begin(alloc, &shared, member, None)?;
                Ok(Added {
                    fits: true,
                    overtaken: false,
                })
            }
        }
    }

    /// Whether the group of a sample with these labels is overtaken: it has begun, and another one after it.
    /// Nothing is said of the groups any more.
    ///
    /// # Errors
    ///
    /// Want of memory.
    pub fn is_overtaken(
        &mut self,
        alloc: Global,
        kind: Kind,
        labels: &LabelSet,
    ) -> Result<bool, Memory>
        ensures { IfOk result (λ overtaken. overtaken ≡ is_overtaken self.old (shared_labels kind labels.now)) }
    {
        match &mut self.store {
            Store::Nothing => Ok(false),
            Store::One(_) => Ok(false),
            Store::Many(table) => table.is_overtaken(alloc, kind, labels),
        }
    }

    /// Whether each group of a histogram has a bucket without an upper bound, as its last, and no other count
    /// than that bucket's.
    pub fn are_whole(&self) -> bool
        ensures { result ≡ list_all (λ (g : Labels × Gathered). is_whole_group g.1) self.now }
    {
        match &self.store {
            Store::Nothing => true,
            Store::One(only) => only.group.is_whole(),
            Store::Many(table) => table.are_whole(),
        }
    }

    /// The readings of the groups, in their order. A counter's group without a total and a summary's with a
    /// created time alone have none.
    ///
    /// # Errors
    ///
    /// Want of memory.
    pub fn into_readings(
        self,
        alloc: Global,
        format: Format,
        kind: Kind,
        family: &Name,
        unit: &Text,
    ) -> Result<List<Reading>, Memory>
        ensures { IfOk result (λ readings. readings ≡ filter_map (reading_from format kind family.now unit.now) self) }
    {
        match self.store {
            Store::Nothing => Ok(List::new(alloc)),
            Store::One(only) => {
                let name = key_name(alloc, format, kind, family)?;
                only_reading(alloc, kind, &name, unit, Box::into_inner(only))
            }
            Store::Many(table) => {
                let name = key_name(alloc, format, kind, family)?;
                Box::into_inner(table).into_readings(alloc, kind, &name, unit)
            }
        }
    }
}
