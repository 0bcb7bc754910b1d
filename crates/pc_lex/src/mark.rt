//! Marks (ISO 7185, 6.1.2 and 6.1.9).

ghost use Rattle.std.specs.Prelude.{◌≡◌};
ghost use Rattle.pc_lex.specs.Marks.{mark_at, single_mark, double_mark, single_or_fault};

use crate::error::LexError;
use crate::front::Front;
use crate::symbol::SymbolKind;

/// The longest mark at the beginning of the text.
#[tactic(auto, using(crate::proofs::Scanning::mark_none, crate::proofs::Scanning::mark_one, crate::proofs::Scanning::mark_two))]
pub fn read_mark(text: &[u8]) -> Front
    ensures { result ≡ mark_at text.now }
{
    if text.len() == 0 {
        return Front::Fault(LexError::BadByte(1));
    }
    if text.len() == 1 {
        return read_single(text[0]);
    }
    match find_double(text[0], text[1]) {
        Some(row) => Front::Symbol(SymbolKind::Mark(row), 2),
        None => read_single(text[0]),
    }
}

/// The mark of this one byte.
fn read_single(b: u8) -> Front
    ensures { result ≡ single_or_fault (single_mark b) }
{
    match find_single(b) {
        Some(row) => Front::Symbol(SymbolKind::Mark(row), 1),
        None => Front::Fault(LexError::BadByte(1)),
    }
}

/// The row of a mark of two bytes.
#[tactic(auto, unfolding(crate::specs::Marks::double_mark))]
fn find_double(b: u8, c: u8) -> Option<u8>
    ensures { result ≡ double_mark b c }
{
    match b {
        b'<' => match c {
            b'>' => Some(17),
            b'=' => Some(18),
            _ => None,
        },
        b'>' => match c {
            b'=' => Some(19),
            _ => None,
        },
        b':' => match c {
            b'=' => Some(20),
            _ => None,
        },
        b'.' => match c {
            b'.' => Some(21),
            b')' => Some(9),
            _ => None,
        },
        b'(' => match c {
            b'.' => Some(8),
            _ => None,
        },
        _ => None,
    }
}

/// The row of a mark of one byte.
#[tactic(auto, unfolding(crate::specs::Marks::single_mark))]
fn find_single(b: u8) -> Option<u8>
    ensures { result ≡ single_mark b }
{
    match b {
        b'+' => Some(1),
        b'-' => Some(2),
        b'*' => Some(3),
        b'/' => Some(4),
        b'=' => Some(5),
        b'<' => Some(6),
        b'>' => Some(7),
        b'[' => Some(8),
        b']' => Some(9),
        b'.' => Some(10),
        b',' => Some(11),
        b':' => Some(12),
        b';' => Some(13),
        b'^' => Some(14),
        b'@' => Some(14),
        b'(' => Some(15),
        b')' => Some(16),
        _ => None,
    }
}
