//! Why a line is no command.

use std::alloc::AllocError;
use std::fmt;

/// The first of these that applies, in this order; want of memory may come at any time.
#[derive(Clone, Copy, Debug, PartialEq, Eq)]
pub enum CommandError {
    /// The line, or the text that it took from the lines after it, has over 1,000,000 bytes.
    TooLong,
    /// The first word is no command word, or the word behind `show`, `watch` or `unwatch` is no view word.
    Unknown,
    /// The command or the view isn't built yet.
    NotBuilt,
    /// The number of an element is needed, and the word there is no row of digits, or its value isn't from 1 to 4294967295; or a
    /// range is needed, and the word there hasn't the form of one with such numbers.
    BadNumber,
    /// A path is needed, and the word there hasn't the form of one.
    BadPath,
    /// A word is needed and isn't there, or the script ends before the text that the line takes from it.
    Missing,
    /// A word is left over.
    Extra,
    /// The allocator has no room.
    NoMemory,
}

impl fmt::Display for CommandError {
    ghost use Rattle.std.specs.Prelude.{Some};
    ghost use Rattle.pc_command.specs.Texts.{error_text};

    ghost output = { λ e. Some (error_text e) };

    fn fmt<W: fmt::Write>(&self, f: &mut fmt::Formatter<W>) -> fmt::Result {
        match self {
            CommandError::TooLong => f.write_str("too long"),
            CommandError::Unknown => f.write_str("unknown command"),
            CommandError::NotBuilt => f.write_str("not built yet"),
            CommandError::BadNumber => f.write_str("bad number"),
            CommandError::BadPath => f.write_str("bad path"),
            CommandError::Missing => f.write_str("missing"),
            CommandError::Extra => f.write_str("extra"),
            CommandError::NoMemory => f.write_str("no memory"),
        }
    }
}

impl std::error::Error for CommandError {}

impl From<AllocError> for CommandError {
    ghost use Rattle.std.specs.Prelude.{◌≡◌};
    ghost use Rattle.pc_command.specs.declared.error.CommandError.TheVariants.{NoMemory};

    ghost from_gives = { λ _ e. e ≡ NoMemory };

    fn from(_error: AllocError) -> CommandError {
        CommandError::NoMemory
    }
}
