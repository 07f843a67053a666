//! Why a script isn't read.
ghost use Rattle.std.specs.Prelude.{◌≡◌};
ghost use Rattle.replay_script.specs.declared.fault.ScriptFault.TheVariants.{Memory as WantOfMemory};

use std::alloc::AllocError;

/// Why a script isn't read.
#[derive(Clone, Copy, Debug, PartialEq, Eq)]
pub enum ScriptFault {
    /// The line, counted from 1, at which the first head line that breaks a rule begins, or would begin.
    Line(u64),
    /// Want of memory.
    Memory,
}

impl From<AllocError> for ScriptFault {
    ghost from_gives = { λ _ fault. fault ≡ WantOfMemory };

    fn from(_: AllocError) -> ScriptFault {
        ScriptFault::Memory
    }
}
