//! What the samples of one group come to.
ghost use Rattle.std.specs.Prelude.{◌≡◌, [], true, not, None, Some, IfOk, OnOk};
ghost use Rattle.std.specs.Option.{option_flatten};
ghost use Rattle.label_sets.specs.declared.kind.Kind.TheVariants.{Counter, Summary, Histogram};
ghost use Rattle.page_model.specs.Rules.{is_up};
ghost use Rattle.sample_groups.specs.declared.part.Part.TheVariants as parts;
ghost use Rattle.sample_groups.specs.Groups.{empty_group, with_one, breaks_order, breaks_last, is_whole_group, group_of_parts, group_value};
ghost use Rattle.sample_groups.specs.Members.{member_behind};
ghost use Rattle.sample_groups.specs.Places.{has_place};

use crate::extra::Extra;
use crate::member::MemberRef;
use crate::part::Part;
use crate::part_list::PartList;
use crate::{extra, parts};
use exact_decimal::{Decimal, Number, less};
use label_sets::{Kind, List, Memory};
use page_model::{Bucket, Exemplar, Value};
use std::alloc::Global;
use std::marker::Model;
use std::mem;

/// What the samples of one group come to: those that share their labels, but for the one that tells
/// buckets or quantiles apart (OpenMetrics 1.0, "Metric").
#[derive(Drop)]
pub(crate) struct Group {
    /// Its samples, in the order of their lines.
    parts: PartList,
    /// What few groups have.
    extra: Option<Box<Extra>>,
}

// A summary may have as many groups as lines.
const _: () = prove!(mem::size_of::<Group>() <= 88);

impl Model for Group {
    ghost use Rattle.std.specs.Prelude.{filter_map};
    ghost use Rattle.sample_groups.specs.Groups.{Gathered, quantile_in};
    ghost use Rattle.sample_groups.specs.ExtraValues.{group_kept};
    ghost use Rattle.sample_groups.specs.Extras.{extra_in};
    ghost use Rattle.sample_groups.specs.Kept.{KnowsPlaces};

    ghost Value = { Gathered };

    ghost view = { λ g. group_kept g.parts (extra_in g.extra) };

    ghost invariant = { λ g. KnowsPlaces (extra_in g.extra).places (filter_map quantile_in g.parts) };
}

/// Whether the bucket isn't above the last one, or has fewer observations (OpenMetrics 1.0, "Histogram").
fn breaks_last(last: Option<Bucket>, bucket: &Bucket) -> bool
    ensures { result ≡ breaks_last last bucket.now }
{
    match last {
        Some(last) => !(less(&last.le, &bucket.le) && last.count <= bucket.count),
        None => false,
    }
}

/// Whether the bucket has no upper bound.
fn is_unbounded(bucket: &Bucket) -> bool
    ensures { result ≡ is_up bucket.now.le }
{
    matches!(&bucket.le, Number::Up)
}

/// The value of a counter's group, where it has a total.
#[tactic(auto, unfolding(crate::specs::Groups::group_of_parts))]
fn total_value(parts: &[Part]) -> Option<Value>
    ensures { result ≡ group_value Counter (group_of_parts parts.now None []) }
{
    match parts::first_total(parts) {
        Some(total) => Some(Value::Plain(total)),
        None => None,
    }
}

/// The value of a summary's group, unless that has a created time alone.
#[tactic(auto, unfolding(crate::specs::Groups::group_of_parts))]
fn quantiles_value(alloc: Global, parts: &[Part]) -> Result<Option<Value>, Memory>
    ensures { IfOk result (λ value. value ≡ group_value Summary (group_of_parts parts.now None [])) }
{
    let list = parts::quantiles(alloc, parts)?;
    let count = parts::first_count(parts);
    let sum = parts::first_sum(parts);
    if list.is_empty() && count.is_none() && sum.is_none() {
        return Ok(None);
    }
    let list = List::from_vec(list)?;
    Ok(Some(Value::Quantiles { list, count, sum }))
}

/// The value of a histogram's group.
#[tactic(auto, unfolding(crate::specs::Groups::group_of_parts))]
fn buckets_value(alloc: Global, parts: &[Part]) -> Result<Value, Memory>
    ensures { IfOk result (λ value. Some value ≡ group_value Histogram (group_of_parts parts.now None [])) }
{
    let buckets = List::from_vec(parts::buckets(alloc, parts)?)?;
    let sum = parts::first_sum(parts);
    Ok(Value::Buckets { buckets, sum })
}

/// The value of a group of this kind of these parts, where they make one.
#[tactic(auto, unfolding(crate::specs::Groups::group_of_parts))]
fn parts_value(alloc: Global, kind: Kind, parts: &[Part]) -> Result<Option<Value>, Memory>
    ensures { IfOk result (λ value. value ≡ group_value kind (group_of_parts parts.now None [])) }
{
    match kind {
        Kind::Counter => Ok(total_value(parts)),
        Kind::Summary => quantiles_value(alloc, parts),
        _ => Ok(Some(buckets_value(alloc, parts)?)),
    }
}

impl Group {
    /// A group without members. It takes no memory.
    pub(crate) fn new() -> Group
        ensures { result ≡ empty_group }
    {
        Group {
            parts: PartList::new(),
            extra: None,
        }
    }

    /// A group of one member.
    pub(crate) fn of(alloc: Global, member: &MemberRef<'_>) -> Result<Group, Memory>
        ensures { IfOk result (λ group. group ≡ with_one empty_group (member_behind member.now)) }
    {
        let mut group = Group::new();
        group.put(alloc, member)?;
        Ok(group)
    }

    /// Whether there is a quantile at this place.
    fn has_place(&self, at: &Decimal) -> bool
        ensures { result ≡ has_place self.now.quantiles at.now }
    {
        extra::has_place(&self.extra, self.parts.as_slice(), at)
    }

    /// Whether a bucket breaks the order.
    fn breaks_bucket(&self, bucket: &Bucket) -> bool
        ensures { result ≡ breaks_order self.now (parts.Bucket bucket.now) }
    {
        breaks_last(parts::last_bucket(self.parts.as_slice()), bucket)
    }

    /// Whether a part keeps the order.
    fn fits(&self, part: &Part) -> bool
        ensures { result ≡ not (breaks_order self.now part.now) }
    {
        match part {
            Part::Bucket(bucket) => !self.breaks_bucket(bucket),
            Part::Quantile(quantile) => !self.has_place(&quantile.at),
            _ => true,
        }
    }

    /// Puts a member behind the others.
    fn put(&mut self, alloc: Global, member: &MemberRef<'_>) -> Result<(), Memory>
        ensures { OnOk result (self.new ≡ with_one self.old (member_behind member.now)) }
    {
        let mut extra = self.extra.take();
        extra::add_member(alloc, &mut extra, self.parts.as_slice(), member)?;
        self.parts.put(alloc, *member.part)?;
        self.extra = extra;
        Ok(())
    }

    /// Adds a member, unless its part breaks the order.
    pub(crate) fn add(&mut self, alloc: Global, member: &MemberRef<'_>) -> Result<bool, Memory>
        ensures answer { IfOk result (λ added. added ≡ not (breaks_order self.old member.now.part.now)) }
        ensures added { IfOk result (λ added. added ≡ true → self.new ≡ with_one self.old (member_behind member.now)) }
    {
        if !self.fits(member.part) {
            return Ok(false);
        }
        self.put(alloc, member)?;
        Ok(true)
    }

    /// Whether the last bucket has no upper bound, and no count is another than that bucket's (OpenMetrics
    /// 1.0, "Histogram").
    pub(crate) fn is_whole(&self) -> bool
        ensures { result ≡ is_whole_group self.now }
    {
        let parts = self.parts.as_slice();
        match parts::last_bucket(parts) {
            Some(last) => is_unbounded(&last) && parts::counts_are(parts, last.count),
            None => false,
        }
    }

    /// When its counts began.
    #[tactic(auto, unfolding(crate::specs::Groups::group_of_parts))]
    pub(crate) fn created_time(&self) -> Option<Number>
        ensures { result ≡ self.now.created }
    {
        parts::first_created(self.parts.as_slice())
    }

    /// The time of its first sample that is more than a created time, where that has one.
    pub(crate) fn time(&self) -> Option<u64>
        ensures { result ≡ option_flatten self.now.first }
    {
        if !parts::has_measure(self.parts.as_slice()) {
            return None;
        }
        extra::kept_time(&self.extra)
    }

    /// The value of the group's reading, where its samples make one.
    pub(crate) fn value(&self, alloc: Global, kind: Kind) -> Result<Option<Value>, Memory>
        ensures { IfOk result (λ value. value ≡ group_value kind self.now) }
    {
        parts_value(alloc, kind, self.parts.as_slice())
    }

    /// The exemplars of its totals and buckets, in the order of their lines.
    pub(crate) fn into_exemplars(self, alloc: Global) -> Result<List<Exemplar>, Memory>
        ensures { IfOk result (λ exemplars. exemplars ≡ self.exemplars) }
    {
        let Group { parts, extra } = self;
        drop(parts);
        extra::kept_exemplars(alloc, extra)
    }
}
