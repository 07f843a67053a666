//! Why a command ends without its text.
ghost use Rattle.std.specs.Prelude.{◌≡◌};
ghost use Rattle.program_words.specs.declared.stop.Stop.TheVariants.{Memory, Read};
ghost use Rattle.program_words.specs.Stops.{stop_status, stop_of, script_stop, config_stop};

use crate::status::Status;
use bridge_config::ConfigFault;
use bridge_ports::Failed;
use page_model::{PageFault, Rule};
use replay_script::ScriptFault;
use std::alloc::AllocError;

/// Why a command ends without its text.
#[derive(Drop)]
pub enum Stop {
    /// The page on the input has a fault: its line, and the rule that it breaks.
    Refused { line: u32, rule: Rule },
    /// The script on the input has a fault: the line of its first head line that breaks a rule.
    BadScript { line: u64 },
    /// The configuration has a fault, which is not want of memory.
    BadConfig(ConfigFault),
    /// The input, or the configuration, is too long.
    TooLong,
    /// A read failed, or the file of the configuration could not be opened.
    Read,
    /// Memory is wanted.
    Memory,
}

impl Stop {
    /// The status that the program ends with.
    pub fn status(&self) -> Status
        ensures { result ≡ stop_status self.now }
    {
        match self {
            Stop::Refused { .. } => Status::Refused,
            Stop::BadScript { .. } => Status::ScriptRefused,
            Stop::BadConfig(_) => Status::ConfigRefused,
            Stop::TooLong => Status::TooLong,
            Stop::Read => Status::ReadFailed,
            Stop::Memory => Status::WantOfMemory,
        }
    }
}

impl From<AllocError> for Stop {
    ghost from_gives = { λ _ stop. stop ≡ Memory };

    fn from(_: AllocError) -> Stop {
        Stop::Memory
    }
}

impl From<Failed> for Stop {
    ghost from_gives = { λ _ stop. stop ≡ Read };

    fn from(_: Failed) -> Stop {
        Stop::Read
    }
}

impl From<ScriptFault> for Stop {
    ghost from_gives = { λ fault stop. stop ≡ script_stop fault };

    fn from(fault: ScriptFault) -> Stop {
        match fault {
            ScriptFault::Line(line) => Stop::BadScript { line },
            ScriptFault::Memory => Stop::Memory,
        }
    }
}

impl From<ConfigFault> for Stop {
    ghost from_gives = { λ fault stop. stop ≡ config_stop fault };

    fn from(fault: ConfigFault) -> Stop {
        match fault {
            ConfigFault::Memory => Stop::Memory,
            fault => Stop::BadConfig(fault),
        }
    }
}

impl From<PageFault> for Stop {
    ghost from_gives = { λ fault stop. stop ≡ stop_of fault };

    fn from(fault: PageFault) -> Stop {
        match fault {
            PageFault::Refused { line, rule } => Stop::Refused { line, rule },
            PageFault::Memory => Stop::Memory,
        }
    }
}
