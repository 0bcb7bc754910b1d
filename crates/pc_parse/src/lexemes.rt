//! The next symbol.

ghost use Rattle.std.specs.Prelude.{◌≡◌};
ghost use Rattle.pc_parse.specs.Lookahead.{sort_number, lexeme_number, same_at};
ghost use Rattle.pc_parse.specs.Tables.{spelling_at};

use pc_syntax::{Lexeme, Sort};

/// The place of a sort in the table of sorts, from 0.
fn sort_number(sort: Sort) -> u8
    ensures { result ≡ sort_number sort }
{
    match sort {
        Sort::Program => 0,
        Sort::Block => 1,
        Sort::ConstDef => 2,
        Sort::TypeDef => 3,
        Sort::VarDef => 4,
        Sort::Routine => 5,
        Sort::Parameter => 6,
        Sort::Denoter => 7,
        Sort::Field => 8,
        Sort::Constant => 9,
        Sort::Statement => 10,
        Sort::Arm => 11,
        Sort::Expression => 12,
        Sort::Name => 13,
    }
}

/// The place of a lexeme in the table of lexemes, from 0.
fn lexeme_number(lexeme: Lexeme) -> u8
    ensures { result ≡ lexeme_number lexeme }
{
    match lexeme {
        Lexeme::KeyAnd => 0,
        Lexeme::KeyArray => 1,
        Lexeme::KeyBegin => 2,
        Lexeme::KeyCase => 3,
        Lexeme::KeyConst => 4,
        Lexeme::KeyDiv => 5,
        Lexeme::KeyDo => 6,
        Lexeme::KeyDownto => 7,
        Lexeme::KeyElse => 8,
        Lexeme::KeyEnd => 9,
        Lexeme::KeyFile => 10,
        Lexeme::KeyFor => 11,
        Lexeme::KeyFunction => 12,
        Lexeme::KeyGoto => 13,
        Lexeme::KeyIf => 14,
        Lexeme::KeyIn => 15,
        Lexeme::KeyLabel => 16,
        Lexeme::KeyMod => 17,
        Lexeme::KeyNil => 18,
        Lexeme::KeyNot => 19,
        Lexeme::KeyOf => 20,
        Lexeme::KeyOr => 21,
        Lexeme::KeyPacked => 22,
        Lexeme::KeyProcedure => 23,
        Lexeme::KeyProgram => 24,
        Lexeme::KeyRecord => 25,
        Lexeme::KeyRepeat => 26,
        Lexeme::KeySet => 27,
        Lexeme::KeyThen => 28,
        Lexeme::KeyTo => 29,
        Lexeme::KeyType => 30,
        Lexeme::KeyUntil => 31,
        Lexeme::KeyVar => 32,
        Lexeme::KeyWhile => 33,
        Lexeme::KeyWith => 34,
        Lexeme::Plus => 35,
        Lexeme::Minus => 36,
        Lexeme::Star => 37,
        Lexeme::Slash => 38,
        Lexeme::Equal => 39,
        Lexeme::Less => 40,
        Lexeme::Greater => 41,
        Lexeme::OpenBracket => 42,
        Lexeme::CloseBracket => 43,
        Lexeme::Dot => 44,
        Lexeme::Comma => 45,
        Lexeme::Colon => 46,
        Lexeme::Semicolon => 47,
        Lexeme::Caret => 48,
        Lexeme::OpenParen => 49,
        Lexeme::CloseParen => 50,
        Lexeme::Unequal => 51,
        Lexeme::AtMost => 52,
        Lexeme::AtLeast => 53,
        Lexeme::Becomes => 54,
        Lexeme::DotDot => 55,
        Lexeme::Identifier => 56,
        Lexeme::Numeral => 57,
        Lexeme::Text => 58,
        Lexeme::Hole(sort) => 59 + sort_number(sort),
    }
}

/// Whether the lexeme comes next.
pub fn comes_next(lexeme: Lexeme, next: Option<Lexeme>) -> bool
    ensures { result ≡ same_at lexeme next }
{
    match next {
        Some(other) => lexeme_number(lexeme) == lexeme_number(other),
        None => false,
    }
}

/// How the next symbol is printed, where it is a key word or a mark.
pub fn next_spelling(next: Option<Lexeme>) -> &'static [u8]
    ensures { result.now ≡ spelling_at next }
{
    match next {
        Some(lexeme) => lexeme.spelling(),
        None => b"",
    }
}
