//! Items of a layout.

use crate::class::Class;
use crate::lexeme::Lexeme;

/// One item of what a node is made of.
#[derive(Clone, Copy, Debug, PartialEq, Eq)]
pub enum Item {
    /// A key word, a mark or a hole.
    Literal(Lexeme),
    /// The node's word, as a name, a numeral or a text.
    Word(Lexeme),
    /// A kid of the class.
    Kid(Class),
}
