//! Why a text with a part replaced is read as no program.

ghost use Rattle.std.specs.Prelude.{◌≡◌};
ghost use Rattle.pc_partial.specs.declared.error.RetypeError.TheVariants.{NoMemory};

use pc_lex::LexError;
use std::alloc::AllocError;
use thiserror::Error;

/// The first reason, in this order; want of memory may come at any time. The numbers are those of the whole new text.
#[derive(Clone, Copy, Debug, PartialEq, Eq, Error)]
pub enum RetypeError {
    /// An end of the range isn't in the text, or it precedes the start.
    #[error("bad range")]
    BadRange,
    /// The new text spells no list of symbols.
    #[error("{0}")]
    Lex(LexError),
    /// No program has the symbols. The number is that of the symbol, from 1, that was refused; it is one more than
    /// there are symbols where the end was.
    #[error("does not fit at symbol {0}")]
    NotFit(u64),
    /// The program has more than 256 levels, and it has so many.
    #[error("too deep: {0} levels")]
    TooDeep(u32),
    /// The program has more nodes than the limit, and it has so many.
    #[error("too large: {0} nodes")]
    TooLarge(u64),
    /// The allocator has no room.
    #[error("no memory")]
    NoMemory,
}

impl From<AllocError> for RetypeError {
    ghost from_gives = { λ _ e. e ≡ NoMemory };

    fn from(_error: AllocError) -> RetypeError {
        RetypeError::NoMemory
    }
}
