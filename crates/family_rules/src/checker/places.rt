//! Where a line stands: the family that goes on, those that were left, and what describes them.
ghost use Rattle.std.specs.Prelude.{◌≡◌, None, is_some, IfOk, OnOk};
ghost use Rattle.std.specs.Map.{lookup};
ghost use Rattle.std.specs.Option.{option_copied};
ghost use Rattle.std.specs.Str.{bytes_eq};
ghost use Rattle.family_rules.specs.Steps.{Takes, line_of, is_current_family, known_in, current_kind, is_late_in, left_stop, place_stop, unit_stop, begun, reached, with_descriptor, with_left};

use super::ItemChecker;
use crate::family::{Current, Descriptor, FamilySoFar};
use crate::group_keys::GroupKeys;
use crate::left::LeftFamilies;
use crate::unit::has_bad_unit;
use label_sets::{Kind, Memory, Name};
use page_model::Rule;
use std::mem;

impl ItemChecker {
    /// Whether this is the family of the nearest line.
    pub(super) fn is_current(&self, family: &Name) -> bool
        ensures { result ≡ is_current_family self.now.current family.now }
    {
        match &self.current {
            Some(current) => current.name == *family,
            None => false,
        }
    }

    /// What is known of a family that has a line.
    fn known(&self, family: &Name) -> Option<&FamilySoFar>
        ensures { option_copied result ≡ known_in self.now.left self.now.current family.now }
    {
        match &self.current {
            Some(current) if current.name == *family => Some(&current.family),
            _ => self.left.get(family),
        }
    }

    /// Whether the family was left before the nearest line.
    pub(super) fn is_left(&self, family: &Name) -> bool
        ensures { result ≡ is_some (lookup (bytes_eq family.now) self.now.left) }
    {
        self.left.has(family)
    }

    /// Rule 9: the family has an earlier descriptor of this sort, or an earlier sample.
    fn is_late(&self, family: &Name, descriptor: &Descriptor) -> bool
        ensures { result ≡ is_late_in descriptor.now (known_in self.now.left self.now.current family.now) }
    {
        match self.known(family) {
            Some(known) => known.is_late(descriptor),
            None => false,
        }
    }

    /// Rule 18: a line of another family leaves a histogram that is incomplete.
    pub(super) fn left_rule(&self) -> Option<Rule>
        ensures { result ≡ left_stop self.now.current }
    {
        match &self.current {
            Some(current) if current.family.is_incomplete() => Some(Rule::Incomplete),
            _ => None,
        }
    }

    /// The rule that a descriptor breaks by its place: 9, 11 or 18.
    #[tactic(auto, unfolding(crate::specs::Steps::place_stop))]
    fn place_rule(&self, family: &Name, descriptor: &Descriptor) -> Option<Rule>
        ensures { result ≡ place_stop self.now family.now descriptor.now }
    {
        if self.is_late(family, descriptor) {
            return Some(Rule::Descriptor);
        }
        if self.is_current(family) {
            return None;
        }
        if self.is_left(family) {
            return Some(Rule::Split);
        }
        self.left_rule()
    }

    /// Begins this family, and leaves the one before it.
    pub(super) fn begin(&mut self, family: Name) -> Result<(), Memory>
        ensures { OnOk result (self.new ≡ begun self.old family) }
    {
        let next = Current {
            name: family,
            family: FamilySoFar::new(self.alloc),
        };
        self.runs.clear(self.alloc);
        self.group_keys = GroupKeys::NoGroups;
        let before = mem::replace(&mut self.current, Some(next));
        put_left(&mut self.left, before)
    }

    /// Makes this the current family, where another was.
    fn reach(&mut self, family: Name) -> Result<(), Memory>
        ensures { OnOk result (self.new ≡ reached self.old family) }
    {
        if self.is_current(&family) {
            drop(family);
            return Ok(());
        }
        self.begin(family)
    }

    /// Rule 19: the unit of the current family, with this line, is one that its name lacks or its kind forbids.
    fn unit_rule(&self, descriptor: &Descriptor) -> Option<Rule>
        ensures { result ≡ unit_stop self.now.current descriptor.now }
    {
        match &self.current {
            Some(current) if has_bad_unit(current, descriptor) => Some(Rule::Unit),
            _ => None,
        }
    }

    /// Keeps what a line says of the current family.
    fn describe(&mut self, descriptor: Descriptor) -> Result<(), Memory>
        ensures { OnOk result (self.new ≡ with_descriptor self.old descriptor) }
    {
        match &mut self.current {
            Some(current) => current.family.describe(self.alloc, descriptor),
            None => {
                drop(descriptor);
                Ok(())
            }
        }
    }

    /// Takes a descriptor, and answers the rule that it breaks.
    pub(super) fn take_descriptor(
        &mut self,
        family: Name,
        descriptor: Descriptor,
    ) -> Result<Option<Rule>, Memory>
        ensures { IfOk result (Takes (line_of family descriptor) self.old self.new) }
    {
        let broken = self.place_rule(&family, &descriptor);
        if broken.is_some() {
            drop(family);
            drop(descriptor);
            return Ok(broken);
        }
        self.reach(family)?;
        let broken = self.unit_rule(&descriptor);
        if broken.is_some() {
            drop(descriptor);
            return Ok(broken);
        }
        self.describe(descriptor)?;
        Ok(None)
    }

    /// The kind of the family of the nearest line.
    pub(super) fn current_kind(&self) -> Kind
        ensures { result ≡ current_kind self.now.current }
    {
        match &self.current {
            Some(current) => current.family.kind(),
            None => Kind::Unknown,
        }
    }
}

/// Puts a family behind those that were left.
pub(super) fn put_left(left: &mut LeftFamilies, current: Option<Current>) -> Result<(), Memory>
    ensures { OnOk result (left.new ≡ with_left left.old current) }
{
    match current {
        Some(Current { name, family }) => left.put(&name, family),
        None => Ok(()),
    }
}
