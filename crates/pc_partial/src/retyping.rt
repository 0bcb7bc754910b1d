//! Reading the text of a program with a range replaced.

ghost use Rattle.std.specs.Prelude.{◌≡◌, ◌≤◌, IfOk, length};
ghost use Rattle.pc_pretty.specs.Ranges.{replaced};
ghost use Rattle.pc_partial.specs.Retyping.{Retypes, misread, unspelled};

use crate::error::RetypeError;
use pc_lex::{LexError, Span, lex};
use pc_parse::{ParseError, Reading, read};
use pc_pretty::{Range, Text};
use pc_syntax::{Sort, Steps, Tree};
use std::alloc::{AllocError, Global};
use std::sync::ledger::Ledger;

/// The program that the text of a program writes once other bytes stand in the place of a range. The text is the
/// tree's.
pub fn retype<L: Ledger>(
    alloc: Global,
    tree: &Tree,
    text: &Text,
    range: &Range,
    new: &[u8],
    work: &mut Steps<L>,
) -> Result<Reading, RetypeError>
    requires { text.now ≡ tree.now }
    ensures { Retypes tree.now range.now new.now result }
{
    let _ = tree;
    let Some(span) = text.range(range) else {
        return Err(RetypeError::BadRange);
    };
    let whole = replaced(alloc, text.bytes(), span, new)?;
    let lexed = match lex(alloc, &whole) {
        Ok(lexed) => lexed,
        Err(error) => return Err(unspelled(error)),
    };
    match read(alloc, Sort::Program, &lexed, work) {
        Ok(reading) => Ok(reading),
        Err(error) => Err(misread(error)),
    }
}

/// The text with other bytes in the place of a span.
fn replaced(alloc: Global, text: &[u8], span: Span, new: &[u8]) -> Result<Vec<u8>, AllocError>
    requires ordered { span.from ≤ span.to }
    requires within { span.to ≤ length text.now }
    ensures { IfOk result (λ whole. whole.items ≡ replaced text.now span new.now) }
{
    let before = &text[..span.from];
    let after = &text[span.to..];
    let room = before
        .len()
        .saturating_add(new.len())
        .saturating_add(after.len());
    let mut whole = Vec::with_capacity(alloc, room)?;
    whole.extend_from_slice(before)?;
    whole.extend_from_slice(new)?;
    whole.extend_from_slice(after)?;
    Ok(whole)
}

/// The answer to a new text with this fault.
fn unspelled(fault: LexError) -> RetypeError
    ensures { result ≡ unspelled fault }
{
    match fault {
        LexError::NoMemory => RetypeError::NoMemory,
        LexError::BadByte(_)
        | LexError::OpenComment(_)
        | LexError::OpenString(_)
        | LexError::EmptyString(_)
        | LexError::LongNumeral(_) => RetypeError::Lex(fault),
    }
}

/// The answer to a new text whose symbols are refused so.
fn misread(error: ParseError) -> RetypeError
    ensures { result ≡ misread error }
{
    match error {
        ParseError::NotFit(number) => RetypeError::NotFit(number),
        ParseError::TooDeep(depth) => RetypeError::TooDeep(depth),
        ParseError::TooLarge(size) => RetypeError::TooLarge(size),
        ParseError::NoMemory => RetypeError::NoMemory,
    }
}
