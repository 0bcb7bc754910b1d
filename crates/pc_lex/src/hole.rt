//! Holes: `?` and the name of a sort.

ghost use Rattle.std.specs.Prelude.{◌≡◌, ◌≤◌, length};
ghost use Rattle.pc_syntax.specs.Words as words;
ghost use Rattle.pc_lex.specs.Holes.{hole_at, sort_named};
ghost use Rattle.pc_lex.specs.Runs.{run};

use crate::byte::is_letter;
use crate::error::LexError;
use crate::front::Front;
use crate::name::is_spelled;
use crate::symbol::SymbolKind;
use pc_syntax::Sort;

/// The hole whose `?` stands before the text: all the letters there are the name of its sort.
#[tactic(auto, unfolding(crate::specs::Holes::hole_at))]
pub fn read_hole(text: &[u8]) -> Front
    ensures { result ≡ hole_at text.now }
{
    let len = count_letters(text);
    match find_sort(&text[..len]) {
        Some(sort) => Front::Symbol(SymbolKind::Hole(sort), len + 1),
        None => Front::Fault(LexError::BadByte(1)),
    }
}

#[tactic(auto, using(crate::proofs::Scanning::run_on, crate::proofs::Scanning::run_off, crate::proofs::Scanning::run_end))]
fn count_letters(text: &[u8]) -> usize
    ensures count { result ≡ run words.is_letter text.now }
    ensures within { result ≤ length text.now }
{
    for (i, b) in text.iter().enumerate() {
        if !is_letter(*b) {
            return i;
        }
    }
    text.len()
}

/// The sort with this name, in any case.
#[tactic(auto, unfolding(crate::specs::Holes::sort_named))]
fn find_sort(name: &[u8]) -> Option<Sort>
    ensures { result ≡ sort_named name.now }
{
    if is_spelled(name, b"program") {
        Some(Sort::Program)
    } else if is_spelled(name, b"block") {
        Some(Sort::Block)
    } else if is_spelled(name, b"constdef") {
        Some(Sort::ConstDef)
    } else if is_spelled(name, b"typedef") {
        Some(Sort::TypeDef)
    } else if is_spelled(name, b"vardef") {
        Some(Sort::VarDef)
    } else if is_spelled(name, b"routine") {
        Some(Sort::Routine)
    } else if is_spelled(name, b"parameter") {
        Some(Sort::Parameter)
    } else if is_spelled(name, b"type") {
        Some(Sort::Denoter)
    } else if is_spelled(name, b"field") {
        Some(Sort::Field)
    } else if is_spelled(name, b"constant") {
        Some(Sort::Constant)
    } else if is_spelled(name, b"statement") {
        Some(Sort::Statement)
    } else if is_spelled(name, b"arm") {
        Some(Sort::Arm)
    } else if is_spelled(name, b"expression") {
        Some(Sort::Expression)
    } else if is_spelled(name, b"name") {
        Some(Sort::Name)
    } else {
        None
    }
}
