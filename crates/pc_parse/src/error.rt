//! Why symbols are read as no tree.

use thiserror::Error;

/// Why there is no tree. Want of memory may come at any time, and else each has one cause.
#[derive(Clone, Copy, Debug, PartialEq, Eq, Error)]
pub enum ParseError {
    /// No tree has these symbols. The number is that of the first symbol, from 1, with which no text
    /// of the sort begins; it is one more than there are symbols where they all begin one.
    #[error("symbol {0} does not fit")]
    NotFit(u64),
    /// The tree has more levels than the limit, and it has so many.
    #[error("too deep: {0} levels")]
    TooDeep(u32),
    /// The tree has more nodes than the limit, and it has so many.
    #[error("too large: {0} nodes")]
    TooLarge(u64),
    /// The allocator has no room.
    #[error("no memory")]
    NoMemory,
}

/// Why a text isn't read, with both numbers of a tree that is over a limit. Want of memory may come
/// at any time, and else each has one cause.
#[derive(Clone, Copy, Debug, PartialEq, Eq, Error)]
pub enum Unread {
    /// No tree has these symbols, as `ParseError::NotFit` says.
    #[error("symbol {0} does not fit")]
    NotFit(u64),
    /// The tree has more levels or more nodes than the limits allow: so many of both. A number over
    /// the last one of its type is that.
    #[error("over the limits: {depth} levels and {size} nodes")]
    Over { depth: u32, size: u64 },
    /// The allocator has no room.
    #[error("no memory")]
    NoMemory,
}
