//! How a run ends.

ghost use Rattle.std.specs.Prelude.{◌≡◌};
ghost use Rattle.pc_transcript.specs.Codes.{code_of};

/// How a run ended.
#[derive(Clone, Copy, Debug, PartialEq, Eq)]
pub enum Status {
    /// The source was read to its end.
    Done,
    /// A command was refused where the run ends at the first refusal.
    Refused,
    /// The words of the command line are none of the program's.
    BadWords,
    /// A read failed.
    ReadFault,
    /// A write or a flush failed.
    WriteFault,
    /// 10,000,000 units of the script were taken, and a further byte is there.
    TooManyLines,
    /// There was no memory outside of a command.
    NoMemory,
}

impl Status {
    /// The number from 0 to 6 that the program ends with.
    pub fn code(self) -> u8
        ensures { result ≡ code_of self }
    {
        self as u8
    }
}
