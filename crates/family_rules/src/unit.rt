//! The unit of a family (OpenMetrics 1.0, "Unit", "Info", "StateSet").
ghost use Rattle.std.specs.Prelude.{◌≡◌};
ghost use Rattle.page_model.specs.Rules.{is_foreign_unit, is_info_or_state_set};
ghost use Rattle.family_rules.specs.Steps.{is_bad_unit_in};

use crate::family::{Current, Descriptor};
use label_sets::{Kind, Name, Text};

/// Whether a unit isn't empty, and with an underscore no suffix of the family's name (OpenMetrics 1.0,
/// "Unit").
fn is_foreign_unit(family: &Name, unit: &Text) -> bool
    ensures { result ≡ is_foreign_unit family.now unit.now }
{
    if unit.is_empty() {
        return false;
    }
    match family.as_bytes().strip_suffix(unit.as_bytes()) {
        Some(front) => !front.ends_with(b"_"),
        None => true,
    }
}

/// Whether it is a kind that allows no unit.
fn is_info_or_state_set(kind: Kind) -> bool
    ensures { result ≡ is_info_or_state_set kind }
{
    matches!(kind, Kind::Info | Kind::StateSet)
}

/// Whether this line gives the family a unit that its name lacks, or a unit and a kind that forbids one.
#[tactic(auto, unfolding(crate::specs::Steps::is_bad_unit_in))]
pub fn has_bad_unit(current: &Current, descriptor: &Descriptor) -> bool
    ensures { result ≡ is_bad_unit_in current.now descriptor.now }
{
    match descriptor {
        Descriptor::Help(_) => false,
        Descriptor::Type(kind) => is_info_or_state_set(*kind) && current.family.unit.is_filled(),
        Descriptor::Unit(unit) => {
            is_foreign_unit(&current.name, unit)
                || is_info_or_state_set(current.family.kind()) && !unit.is_empty()
        }
    }
}
