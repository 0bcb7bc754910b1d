//! Why a command isn't done.

use pc_lex::LexError;
use std::fmt;

/// Why a command that is one isn't done: the first of these that applies, in this order; want of memory may come at any
/// time. What it was to change stays as it was.
#[derive(Clone, Copy, Debug, PartialEq, Eq)]
pub enum Refusal {
    /// There is no such range in the printed text of the program.
    BadRange,
    /// There is no such place.
    NoPlace,
    /// There is no such template.
    NoTemplate,
    /// The text spells no symbols: its first fault. It is never want of memory.
    Lex(LexError),
    /// 0: the piece doesn't fit its place. Else the text fits no tree, and the number is that of the symbol, from 1, at
    /// which that shows; it is one more than there are symbols where the end shows it.
    NotFit(u64),
    /// The program would be so many nodes deep.
    TooDeep(u32),
    /// The program would have so many nodes.
    TooLarge(u64),
    /// No change is left that could be undone.
    NothingToUndo,
    /// No change is left that was undone.
    NothingToRedo,
    /// The allocator has no room.
    NoMemory,
}

impl fmt::Display for Refusal {
    ghost use Rattle.std.specs.Prelude.{Some};
    ghost use Rattle.pc_command.specs.Texts.{refusal_text};

    ghost output = { λ r. Some (refusal_text r) };

    fn fmt<W: fmt::Write>(&self, f: &mut fmt::Formatter<W>) -> fmt::Result {
        match self {
            Refusal::BadRange => f.write_str("bad range"),
            Refusal::NoPlace => f.write_str("no such place"),
            Refusal::NoTemplate => f.write_str("no such template"),
            Refusal::Lex(LexError::BadByte(byte)) => write!(f, "bad character at byte {byte}"),
            Refusal::Lex(LexError::OpenComment(byte)) => write!(
                f,
                "comment not closed at byte {byte}"
            ),
            Refusal::Lex(LexError::OpenString(byte)) => write!(
                f,
                "string not closed at byte {byte}"
            ),
            Refusal::Lex(LexError::EmptyString(byte)) => write!(f, "empty string at byte {byte}"),
            Refusal::Lex(LexError::LongNumeral(byte)) => write!(
                f,
                "number too long at byte {byte}"
            ),
            Refusal::Lex(LexError::NoMemory) => f.write_str("no memory"),
            Refusal::NotFit(0) => f.write_str("does not fit here"),
            Refusal::NotFit(symbol) => write!(f, "does not fit at symbol {symbol}"),
            Refusal::TooDeep(depth) => write!(f, "too deep {depth}"),
            Refusal::TooLarge(size) => write!(f, "too large {size}"),
            Refusal::NothingToUndo => f.write_str("nothing to undo"),
            Refusal::NothingToRedo => f.write_str("nothing to redo"),
            Refusal::NoMemory => f.write_str("no memory"),
        }
    }
}

impl std::error::Error for Refusal {}
