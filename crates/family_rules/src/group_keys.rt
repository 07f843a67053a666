//! What tells of a group of the current family that it is new, without a look at the groups.
ghost use Rattle.std.specs.Prelude.{◌≡◌};
ghost use Rattle.family_rules.specs.GroupKeys.{tells};

use label_sets::Name;

/// Which keys tell that a group of the current family is new. Where each group has begun with a sample of one name,
/// as those of counters mostly have, a key of that name that is new begins a group.
#[derive(Drop)]
pub enum GroupKeys {
    /// No group has begun, so that each is new.
    NoGroups,
    /// Those of the name with which each group has begun.
    Of(Name),
    /// It has to be looked up.
    Unknown,
}

impl GroupKeys {
    /// Whether the keys of this name tell it.
    pub fn tell(&self, name: &Name) -> bool
        ensures { result ≡ tells self.now name.now }
    {
        match self {
            GroupKeys::NoGroups => true,
            GroupKeys::Of(first) => first == name,
            GroupKeys::Unknown => false,
        }
    }
}
