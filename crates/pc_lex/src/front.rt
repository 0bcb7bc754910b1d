//! What stands at the beginning of a text.

ghost use Rattle.std.specs.Prelude.{◌≡◌, ◌≤◌, length};
ghost use Rattle.pc_lex.specs.Fronts.{front};
ghost use Rattle.pc_lex.specs.Spells.{front_at};

use crate::byte::{is_blank, is_digit, is_letter, rest_of};
use crate::comment::{opens_by_star, read_comment};
use crate::error::LexError;
use crate::hole::read_hole;
use crate::mark::read_mark;
use crate::name::read_name;
use crate::numeral::read_numeral;
use crate::quoted::read_text;
use crate::symbol::SymbolKind;

/// What stands at the beginning of a text, with its length in bytes.
#[derive(Clone, Copy, Debug, PartialEq, Eq)]
pub enum Front {
    /// Nothing: the text is empty.
    End,
    /// One byte of white space.
    Blank,
    /// A comment.
    Comment(usize),
    /// A symbol.
    Symbol(SymbolKind, usize),
    /// A fault; its number is that of the byte, from 1 at the beginning.
    Fault(LexError),
}

/// What stands at the beginning of the text.
#[tactic(auto, using(crate::proofs::Fronts::front_end, crate::proofs::Fronts::front_blank, crate::proofs::Fronts::front_brace, crate::proofs::Fronts::front_star, crate::proofs::Fronts::front_name, crate::proofs::Fronts::front_numeral, crate::proofs::Fronts::front_text, crate::proofs::Fronts::front_hole, crate::proofs::Fronts::front_mark))]
pub fn read_front(text: &[u8]) -> Front
    ensures { result ≡ front text.now }
{
    if text.len() == 0 {
        return Front::End;
    }
    let b = text[0];
    if is_blank(b) {
        Front::Blank
    } else if b == b'{' {
        read_comment(text, 1)
    } else if opens_by_star(text) {
        read_comment(text, 2)
    } else if is_letter(b) {
        read_name(text)
    } else if is_digit(b) {
        read_numeral(text)
    } else if b == b'\'' {
        read_text(text)
    } else if b == b'?' {
        read_hole(rest_of(text, 1))
    } else {
        read_mark(text)
    }
}

/// What stands at a place of the text.
pub fn front_from(text: &[u8], at: usize) -> Front
    requires { at ≤ length text.now }
    ensures { front_at text.now at ≡ result }
{
    read_front(rest_of(text, at))
}
