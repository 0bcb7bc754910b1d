//! Why a text spells no list of symbols.

ghost use Rattle.std.specs.Prelude.{◌≡◌};
ghost use Rattle.pc_lex.specs.declared.error.LexError.TheVariants.{NoMemory};

use std::alloc::AllocFailed;
use thiserror::Error;

/// The first lexical fault in reading order. A number is that of the byte, from 1, at which the
/// fault stands, or at which the comment, text or numeral with the fault opens.
#[derive(Clone, Copy, Debug, PartialEq, Eq, Error)]
pub enum LexError {
    /// No symbol begins at this byte, or it may not stand in a text.
    #[error("bad character at byte {0}")]
    BadByte(u64),
    /// Neither `}` nor `*)` follows the comment's opening mark.
    #[error("comment not closed at byte {0}")]
    OpenComment(u64),
    /// The line or the whole text ends before the closing apostrophe.
    #[error("string not closed at byte {0}")]
    OpenString(u64),
    /// Two apostrophes with nothing between them.
    #[error("empty string at byte {0}")]
    EmptyString(u64),
    /// The digits stand for a number over 2^128 - 1.
    #[error("number too long at byte {0}")]
    LongNumeral(u64),
    /// The allocator has no room.
    #[error("no memory")]
    NoMemory,
}

impl<T: Drop> From<AllocFailed<T>> for LexError {
    ghost from_gives = { λ _ e. e ≡ NoMemory };

    fn from(_error: AllocFailed<T>) -> LexError {
        LexError::NoMemory
    }
}
