//! Why a tree was not made or changed, and why a word was not read.

ghost use Rattle.std.specs.Prelude.{◌≡◌};
ghost use Rattle.pc_syntax.specs.declared.error.ReadError.TheVariants as read_error;

use std::alloc::{AllocError, AllocFailed};
use thiserror::Error;

/// The first of these that applies, in this order.
#[derive(Clone, Copy, Debug, PartialEq, Eq, Error)]
pub enum EditError {
    /// There is no such node.
    #[error("there is no such node")]
    NoPlace,
    /// The grammar has no such tree.
    #[error("it does not fit there")]
    NotFit,
    /// The tree would be so deep, over 256.
    #[error("the tree would be {0} nodes deep")]
    TooDeep(u32),
    /// The tree would have so many nodes, over 1,000,000.
    #[error("the tree would have {0} nodes")]
    TooLarge(u64),
    #[error("no memory")]
    NoMemory,
}

/// Why a word was not read as a path or a key.
#[derive(Clone, Copy, Debug, PartialEq, Eq, Error)]
pub enum ReadError {
    /// The word hasn't the form.
    #[error("bad form")]
    BadForm,
    #[error("no memory")]
    NoMemory,
}

impl From<AllocError> for ReadError {
    ghost from_gives = { λ _ e. e ≡ read_error.NoMemory };

    fn from(_error: AllocError) -> ReadError {
        ReadError::NoMemory
    }
}

impl<T: Drop> From<AllocFailed<T>> for ReadError {
    ghost from_gives = { λ _ e. e ≡ read_error.NoMemory };

    fn from(_error: AllocFailed<T>) -> ReadError {
        ReadError::NoMemory
    }
}
