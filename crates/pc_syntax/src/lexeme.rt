//! The symbols of Pascal (ISO 7185, 6.1), without their spellings.

ghost use Rattle.std.specs.Prelude.{◌≡◌};
ghost use Rattle.pc_syntax.specs.Spellings.{spelling_of};

use crate::sort::Sort;

/// What a symbol is: a key word, a mark, a name, a numeral, a text or a hole.
#[derive(Clone, Copy, Debug, PartialEq, Eq)]
pub enum Lexeme {
    KeyAnd,
    KeyArray,
    KeyBegin,
    KeyCase,
    KeyConst,
    KeyDiv,
    KeyDo,
    KeyDownto,
    KeyElse,
    KeyEnd,
    KeyFile,
    KeyFor,
    KeyFunction,
    KeyGoto,
    KeyIf,
    KeyIn,
    KeyLabel,
    KeyMod,
    KeyNil,
    KeyNot,
    KeyOf,
    KeyOr,
    KeyPacked,
    KeyProcedure,
    KeyProgram,
    KeyRecord,
    KeyRepeat,
    KeySet,
    KeyThen,
    KeyTo,
    KeyType,
    KeyUntil,
    KeyVar,
    KeyWhile,
    KeyWith,
    /// `+`
    Plus,
    /// `-`
    Minus,
    /// `*`
    Star,
    /// `/`
    Slash,
    /// `=`
    Equal,
    /// `<`
    Less,
    /// `>`
    Greater,
    /// `[`
    OpenBracket,
    /// `]`
    CloseBracket,
    /// `.`
    Dot,
    /// `,`
    Comma,
    /// `:`
    Colon,
    /// `;`
    Semicolon,
    /// `^`
    Caret,
    /// `(`
    OpenParen,
    /// `)`
    CloseParen,
    /// `<>`
    Unequal,
    /// `<=`
    AtMost,
    /// `>=`
    AtLeast,
    /// `:=`
    Becomes,
    /// `..`
    DotDot,
    /// A name that is no key word.
    Identifier,
    /// An unsigned number.
    Numeral,
    /// A text between apostrophes.
    Text,
    /// A part that is still to be written, as `?expression`.
    Hole(Sort),
}

impl Lexeme {
    /// How it is printed. A name, a numeral and a text have a spelling of their own, and here none.
    pub fn spelling(self) -> &'static [u8]
        ensures { result.now ≡ spelling_of self }
    {
        match self {
            Lexeme::KeyAnd => b"and",
            Lexeme::KeyArray => b"array",
            Lexeme::KeyBegin => b"begin",
            Lexeme::KeyCase => b"case",
            Lexeme::KeyConst => b"const",
            Lexeme::KeyDiv => b"div",
            Lexeme::KeyDo => b"do",
            Lexeme::KeyDownto => b"downto",
            Lexeme::KeyElse => b"else",
            Lexeme::KeyEnd => b"end",
            Lexeme::KeyFile => b"file",
            Lexeme::KeyFor => b"for",
            Lexeme::KeyFunction => b"function",
            Lexeme::KeyGoto => b"goto",
            Lexeme::KeyIf => b"if",
            Lexeme::KeyIn => b"in",
            Lexeme::KeyLabel => b"label",
            Lexeme::KeyMod => b"mod",
            Lexeme::KeyNil => b"nil",
            Lexeme::KeyNot => b"not",
            Lexeme::KeyOf => b"of",
            Lexeme::KeyOr => b"or",
            Lexeme::KeyPacked => b"packed",
            Lexeme::KeyProcedure => b"procedure",
            Lexeme::KeyProgram => b"program",
            Lexeme::KeyRecord => b"record",
            Lexeme::KeyRepeat => b"repeat",
            Lexeme::KeySet => b"set",
            Lexeme::KeyThen => b"then",
            Lexeme::KeyTo => b"to",
            Lexeme::KeyType => b"type",
            Lexeme::KeyUntil => b"until",
            Lexeme::KeyVar => b"var",
            Lexeme::KeyWhile => b"while",
            Lexeme::KeyWith => b"with",
            Lexeme::Plus => b"+",
            Lexeme::Minus => b"-",
            Lexeme::Star => b"*",
            Lexeme::Slash => b"/",
            Lexeme::Equal => b"=",
            Lexeme::Less => b"<",
            Lexeme::Greater => b">",
            Lexeme::OpenBracket => b"[",
            Lexeme::CloseBracket => b"]",
            Lexeme::Dot => b".",
            Lexeme::Comma => b",",
            Lexeme::Colon => b":",
            Lexeme::Semicolon => b";",
            Lexeme::Caret => b"^",
            Lexeme::OpenParen => b"(",
            Lexeme::CloseParen => b")",
            Lexeme::Unequal => b"<>",
            Lexeme::AtMost => b"<=",
            Lexeme::AtLeast => b">=",
            Lexeme::Becomes => b":=",
            Lexeme::DotDot => b"..",
            Lexeme::Hole(sort) => sort.hole(),
            Lexeme::Identifier | Lexeme::Numeral | Lexeme::Text => b"",
        }
    }
}
