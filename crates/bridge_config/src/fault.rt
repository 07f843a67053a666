//! Why a configuration isn't read.
ghost use Rattle.std.specs.Prelude.{◌≡◌};
ghost use Rattle.bridge_config.specs.declared.fault.ConfigFault.TheVariants.{Memory as WantOfMemory};

use label_sets::Text;
use std::alloc::{AllocError, AllocFailed};

/// Why a configuration isn't read. A key of a target stands as `target`, its number from 1, and the key.
#[derive(Drop)]
pub enum ConfigFault {
    /// The bytes aren't a TOML document.
    Toml,
    /// The key isn't one of a configuration.
    Unknown(Text),
    /// The key's value has another form.
    Kind(Text),
    /// The key is needed.
    Missing(Text),
    /// The key's value is out of its range.
    Range(Text),
    /// The URL of the collector (0) or of a target (its number) isn't an address.
    Address(u32),
    /// The target of this number has the job and the instance of an earlier one.
    Twice(u32),
    /// A product is too large.
    Product(Product),
    /// Want of memory.
    Memory,
}

/// The products that are bounded.
#[derive(Clone, Copy, Debug, PartialEq, Eq)]
pub enum Product {
    /// Targets by samples of a page.
    Samples,
    /// Scrapers by bytes of a page.
    Pages,
    /// Targets by bytes of a page.
    Held,
}

impl From<AllocError> for ConfigFault {
    ghost from_gives = { λ _ fault. fault ≡ WantOfMemory };

    fn from(_: AllocError) -> ConfigFault {
        ConfigFault::Memory
    }
}

impl<T: Drop> From<AllocFailed<T>> for ConfigFault {
    ghost from_gives = { λ _ fault. fault ≡ WantOfMemory };

    fn from(_: AllocFailed<T>) -> ConfigFault {
        ConfigFault::Memory
    }
}
