//! The statuses that the program ends with.
ghost use Rattle.std.specs.Prelude.{◌≡◌, OnOk, OnErr};
ghost use Rattle.program_words.specs.declared.status.Status.TheVariants.{WriteFailed};
ghost use Rattle.program_words.specs.Statuses.{code_of};

use bridge_ports::Failed;

/// How the program ended.
#[derive(Clone, Copy, Debug, PartialEq, Eq)]
pub enum Status {
    /// The output has the whole text.
    Done = 0,
    /// The page on the input has a fault, which the output names.
    Refused = 1,
    /// The words fit no form of the command line.
    NoForm = 2,
    /// A read failed.
    ReadFailed = 3,
    /// A write failed.
    WriteFailed = 4,
    /// The configuration has a fault, which the output names.
    ConfigRefused = 5,
    /// Memory was wanted.
    WantOfMemory = 6,
    /// The script on the input has a fault, whose line the output names.
    ScriptRefused = 7,
    /// The input is too long.
    TooLong = 8,
}

impl Status {
    /// The status of the process.
    pub fn code(self) -> u8
        ensures { result ≡ code_of self }
    {
        self as u8
    }
}

/// The status behind a text that was written whole, or not.
pub fn end_code(status: Status, written: Result<(), Failed>) -> u8
    ensures whole { OnOk written (result ≡ code_of status) }
    ensures front { OnErr written (result ≡ code_of WriteFailed) }
{
    match written {
        Ok(()) => status.code(),
        Err(Failed) => Status::WriteFailed.code(),
    }
}
