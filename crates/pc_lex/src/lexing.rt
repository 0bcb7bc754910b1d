//! The symbols of a text.

ghost use Rattle.std.specs.Prelude.{◌≡◌, ◌≢◌, ◌+◌, ◌<◌, ◌≤◌, ◌^◌, IfOk, IfErr, length, slice_range};
ghost use Rattle.pc_lex.specs.Fronts.{byte_of};
ghost use Rattle.pc_lex.specs.Spells as spells;
ghost use Rattle.pc_lex.specs.Views.{IsLexed, plain_symbol};

use crate::error::LexError;
use crate::front::{Front, front_from};
use crate::symbol::{Lexed, Span, Symbol, SymbolKind};
use std::alloc::Global;
use std::mem;

/// The symbols of the text, each with the comments that stand before it, and the comments after
/// the last one. An error is the first lexical fault in reading order, or `NoMemory`.
pub fn lex<'a>(alloc: Global, text: &'a [u8]) -> Result<Lexed<'a>, LexError>
    ensures same_text { IfOk result (λ lexed. lexed.text.now ≡ text.now) }
    ensures spelled { IfOk result IsLexed }
    ensures fault { IfErr result (λ e. e ≢ LexError.NoMemory → spells.FirstFault text.now e) }
{
    let mut symbols: Vec<Symbol<'a>> = Vec::new(alloc);
    let mut notes: Vec<Span> = Vec::new(alloc);
    let mut at = 0;
    'reading: loop {
        match front_from(text, at) {
            Front::End => {
                return Ok(Lexed {
                    text,
                    symbols,
                    tail: notes,
                });
            }
            Front::Blank => at += 1,
            Front::Comment(len) => {
                let to = at + len;
                notes.push(Span { from: at, to })?;
                at = to;
            }
            Front::Symbol(kind, len) => {
                let to = at + len;
                let before = mem::replace(&mut notes, Vec::new(alloc));
                symbols.push(symbol_from(text, kind, Span { from: at, to }, before))?;
                at = to;
            }
            Front::Fault(fault) => return Err(moved(fault, at)),
        }
    }
}

/// The symbol of this kind with this span, and the comments before it.
fn symbol_from<'a>(text: &'a [u8], kind: SymbolKind, span: Span, notes: Vec<Span>) -> Symbol<'a>
    requires ordered { span.from ≤ span.to }
    requires within { span.to ≤ length text.now }
    ensures { plain_symbol result ≡ record { kind = kind; spelling = slice_range text.now span.from span.to; span = span; notes = notes.items } }
{
    Symbol {
        kind,
        spelling: &text[span.from..span.to],
        span,
        notes,
    }
}

/// The fault, where `by` more bytes stand before it.
fn moved(fault: LexError, by: usize) -> LexError
    requires { by + byte_of fault < 2 ^ 64 }
    ensures { result ≡ spells.moved by fault }
{
    let by = by as u64;
    match fault {
        LexError::BadByte(k) => LexError::BadByte(by + k),
        LexError::OpenComment(k) => LexError::OpenComment(by + k),
        LexError::OpenString(k) => LexError::OpenString(by + k),
        LexError::EmptyString(k) => LexError::EmptyString(by + k),
        LexError::LongNumeral(k) => LexError::LongNumeral(by + k),
        LexError::NoMemory => LexError::NoMemory,
    }
}
