//! Why a page is refused: a rule and a line, or want of memory.
ghost use Rattle.std.specs.Prelude.{◌≡◌};
ghost use Rattle.page_model.specs.declared.fault.PageFault.TheVariants as faults;

use crate::rule::Rule;
use std::alloc::{AllocError, AllocFailed};

/// Why a page isn't read.
#[derive(Clone, Copy, Debug, PartialEq, Eq, thiserror::Error)]
pub enum PageFault {
    /// The least line that breaks a rule, counted from 1, and of the rules broken there the least. The
    /// line past the last stands for the end.
    #[error("line {line} breaks rule {rule}")]
    Refused { line: u32, rule: Rule },
    /// Want of memory.
    #[error("out of memory")]
    Memory,
}

impl From<AllocError> for PageFault {
    ghost from_gives = { λ _ fault. fault ≡ faults.Memory };

    fn from(_: AllocError) -> PageFault {
        PageFault::Memory
    }
}

impl<T: Drop> From<AllocFailed<T>> for PageFault {
    ghost from_gives = { λ _ fault. fault ≡ faults.Memory };

    fn from(_: AllocFailed<T>) -> PageFault {
        PageFault::Memory
    }
}
