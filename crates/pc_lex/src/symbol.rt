//! Symbols and where they stand.

ghost use Rattle.std.specs.Prelude.{◌≡◌};
ghost use Rattle.pc_lex.specs.Views.{lexeme_of};
ghost use Rattle.pc_lex.specs.Views as Views;

use pc_syntax::{Lexeme, Sort};

/// A part of a text: the bytes from `from` to before `to`, counted from 0.
#[derive(Clone, Copy, Debug, PartialEq, Eq)]
pub struct Span {
    pub from: usize,
    pub to: usize,
}

/// What a symbol is (ISO 7185, 6.1).
#[derive(Clone, Copy, Debug, PartialEq, Eq)]
pub enum SymbolKind {
    /// A key word: its row, 1 to 35, in the alphabetical list of key words.
    Key(u8),
    /// A mark: its row, 1 to 21, in the list
    /// `+ - * / = < > [ ] . , : ; ^ ( ) <> <= >= := ..`.
    Mark(u8),
    /// A name that is no key word.
    Name,
    /// An unsigned number.
    Numeral,
    /// A text between apostrophes.
    Text,
    /// A part that is still to be written, as `?expression`.
    Hole(Sort),
}

/// A symbol of a text: what it is, how it is written there, where it stands, and the comments
/// between it and the symbol before it, each with both of its delimiters.
#[derive(Drop)]
pub struct Symbol<'a> {
    pub kind: SymbolKind,
    pub spelling: &'a [u8],
    pub span: Span,
    pub notes: Vec<Span>,
}

/// A text with its symbols, and the comments after the last one.
#[derive(Drop)]
pub struct Lexed<'a> {
    pub text: &'a [u8],
    pub symbols: Vec<Symbol<'a>>,
    pub tail: Vec<Span>,
}

impl<'a> Symbol<'a> {
    /// What it is to a parser, without its spelling.
    pub fn lexeme(&self) -> Lexeme
        ensures { result ≡ lexeme_of self.now.kind }
    {
        self.kind.lexeme()
    }
}

impl SymbolKind {
    /// What a symbol of this kind is to a parser. A row outside its table counts as the first one.
    #[tactic(auto, unfolding(crate::specs::Views::lexeme_of))]
    pub fn lexeme(self) -> Lexeme
        ensures { result ≡ lexeme_of self }
    {
        match self {
            SymbolKind::Key(row) => key_lexeme(row),
            SymbolKind::Mark(row) => mark_lexeme(row),
            SymbolKind::Name => Lexeme::Identifier,
            SymbolKind::Numeral => Lexeme::Numeral,
            SymbolKind::Text => Lexeme::Text,
            SymbolKind::Hole(sort) => Lexeme::Hole(sort),
        }
    }
}

const KEYS: [Lexeme; 35] = [
    Lexeme::KeyAnd,
    Lexeme::KeyArray,
    Lexeme::KeyBegin,
    Lexeme::KeyCase,
    Lexeme::KeyConst,
    Lexeme::KeyDiv,
    Lexeme::KeyDo,
    Lexeme::KeyDownto,
    Lexeme::KeyElse,
    Lexeme::KeyEnd,
    Lexeme::KeyFile,
    Lexeme::KeyFor,
    Lexeme::KeyFunction,
    Lexeme::KeyGoto,
    Lexeme::KeyIf,
    Lexeme::KeyIn,
    Lexeme::KeyLabel,
    Lexeme::KeyMod,
    Lexeme::KeyNil,
    Lexeme::KeyNot,
    Lexeme::KeyOf,
    Lexeme::KeyOr,
    Lexeme::KeyPacked,
    Lexeme::KeyProcedure,
    Lexeme::KeyProgram,
    Lexeme::KeyRecord,
    Lexeme::KeyRepeat,
    Lexeme::KeySet,
    Lexeme::KeyThen,
    Lexeme::KeyTo,
    Lexeme::KeyType,
    Lexeme::KeyUntil,
    Lexeme::KeyVar,
    Lexeme::KeyWhile,
    Lexeme::KeyWith,
];

const MARKS: [Lexeme; 21] = [
    Lexeme::Plus,
    Lexeme::Minus,
    Lexeme::Star,
    Lexeme::Slash,
    Lexeme::Equal,
    Lexeme::Less,
    Lexeme::Greater,
    Lexeme::OpenBracket,
    Lexeme::CloseBracket,
    Lexeme::Dot,
    Lexeme::Comma,
    Lexeme::Colon,
    Lexeme::Semicolon,
    Lexeme::Caret,
    Lexeme::OpenParen,
    Lexeme::CloseParen,
    Lexeme::Unequal,
    Lexeme::AtMost,
    Lexeme::AtLeast,
    Lexeme::Becomes,
    Lexeme::DotDot,
];

fn key_lexeme(row: u8) -> Lexeme
    ensures { result ≡ Views.key_lexeme row }
{
    let at = row.saturating_sub(1) as usize;
    if at < KEYS.len() {
        KEYS[at]
    } else {
        Lexeme::KeyAnd
    }
}

fn mark_lexeme(row: u8) -> Lexeme
    ensures { result ≡ Views.mark_lexeme row }
{
    let at = row.saturating_sub(1) as usize;
    if at < MARKS.len() {
        MARKS[at]
    } else {
        Lexeme::Plus
    }
}
