//! The classes of faults in keys.
ghost use Rattle.std.specs.Prelude.{◌≡◌};
ghost use Rattle.bridge_config.specs.KeyFaults as spec;

use crate::fault::ConfigFault;
use label_sets::Text;

/// A class of faults in keys.
#[derive(Clone, Copy)]
pub(crate) enum KeyClass {
    /// The key isn't one of a configuration.
    Unknown,
    /// The key's value has another form.
    Kind,
    /// The key is needed.
    Missing,
    /// The key's value is out of its range.
    Range,
}

/// The classes, in the order in which their faults go.
pub(crate) const CLASSES: [KeyClass; 4] = [
    KeyClass::Unknown,
    KeyClass::Kind,
    KeyClass::Missing,
    KeyClass::Range,
];

impl KeyClass {
    /// The fault of this class at a key.
    pub(crate) fn fault(self, key: Text) -> ConfigFault
        ensures { result ≡ spec.fault_at self key }
    {
        match self {
            KeyClass::Unknown => ConfigFault::Unknown(key),
            KeyClass::Kind => ConfigFault::Kind(key),
            KeyClass::Missing => ConfigFault::Missing(key),
            KeyClass::Range => ConfigFault::Range(key),
        }
    }
}
