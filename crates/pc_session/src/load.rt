//! The program that a text writes, or the printed text of a program with a range replaced.

ghost use Rattle.std.specs.Prelude.{◌≡◌};
ghost use Rattle.pc_syntax.specs.Plain.{Plain};
ghost use Rattle.pc_partial.specs.Retyping.{StepsOnSymbols};
ghost use Rattle.pc_session.specs.Editing.{Writes, Retypes};
ghost use Rattle.pc_session.specs.Finding.{FindsSymbols, misread, unretyped, unspelled};

use crate::made::Made;
use pc_command::Refusal;
use pc_lex::{LexError, Lexed, lex};
use pc_parse::{ParseError, read};
use pc_partial::{RetypeError, retype};
use pc_pretty::{Range, pretty};
use pc_syntax::{Sort, Steps, Tree};
use std::alloc::Global;
use std::sync::ledger::Ledger;

/// The program that a text writes.
pub fn program_of<L: Ledger>(
    alloc: Global,
    text: &[u8],
    work: &mut Steps<L>,
) -> Result<Made, Refusal>
    ensures made { (p : Plain) → Writes text.now p result }
    ensures work { StepsOnSymbols text.now work.old work.new }
{
    let lexed = symbols_of(alloc, text)?;
    match read(alloc, Sort::Program, &lexed, work) {
        Ok(reading) => Ok(Made {
            tree: reading.tree,
            dropped: reading.dropped,
        }),
        Err(error) => Err(misread(error)),
    }
}

/// The program that the printed text of a program writes once a text stands in the place of a range.
pub fn with_range<L: Ledger>(
    alloc: Global,
    tree: &Tree,
    range: &Range,
    new: &[u8],
    work: &mut Steps<L>,
) -> Result<Made, Refusal>
    ensures { Retypes range.now new.now tree.now result }
{
    let Ok(text) = pretty(alloc, tree) else {
        return Err(Refusal::NoMemory);
    };
    match retype(alloc, tree, &text, range, new, work) {
        Ok(reading) => Ok(Made {
            tree: reading.tree,
            dropped: reading.dropped,
        }),
        Err(error) => Err(unretyped(error)),
    }
}

/// The symbols of a text.
pub fn symbols_of<'a>(alloc: Global, text: &'a [u8]) -> Result<Lexed<'a>, Refusal>
    ensures { FindsSymbols text.now result }
{
    match lex(alloc, text) {
        Ok(lexed) => Ok(lexed),
        Err(error) => Err(unspelled(error)),
    }
}

// The refusal of a program whose symbols are refused so.
fn misread(error: ParseError) -> Refusal
    ensures { result ≡ misread error }
{
    match error {
        ParseError::NotFit(number) => Refusal::NotFit(number),
        ParseError::TooDeep(depth) => Refusal::TooDeep(depth),
        ParseError::TooLarge(size) => Refusal::TooLarge(size),
        ParseError::NoMemory => Refusal::NoMemory,
    }
}

// The refusal of a text with a range replaced that is refused so.
fn unretyped(error: RetypeError) -> Refusal
    ensures { result ≡ unretyped error }
{
    match error {
        RetypeError::BadRange => Refusal::BadRange,
        RetypeError::Lex(fault) => Refusal::Lex(fault),
        RetypeError::NotFit(number) => Refusal::NotFit(number),
        RetypeError::TooDeep(depth) => Refusal::TooDeep(depth),
        RetypeError::TooLarge(size) => Refusal::TooLarge(size),
        RetypeError::NoMemory => Refusal::NoMemory,
    }
}

// The refusal of a text with this fault.
fn unspelled(fault: LexError) -> Refusal
    ensures { result ≡ unspelled fault }
{
    match fault {
        LexError::NoMemory => Refusal::NoMemory,
        _ => Refusal::Lex(fault),
    }
}
