//! The symbols of a text, or its first fault.
//!
//! For each comment and symbol, in the order of the text: where it stands, what it is (of a symbol the way that it is
//! printed too), and how it is written.

use crate::trouble::Trouble;
use pc_lex::{Lexed, Span, lex};
use std::alloc::Global;

pub fn answer(alloc: Global, input: &[u8]) -> Result<Vec<u8>, Trouble> {
    match lex(alloc, input) {
        Ok(lexed) => symbols(alloc, &lexed),
        Err(error) => Ok(format!(in alloc; "{error}\n")?.into_bytes()),
    }
}

fn symbols(alloc: Global, lexed: &Lexed) -> Result<Vec<u8>, Trouble> {
    let mut text = Vec::new(alloc);
    for symbol in &lexed.symbols {
        comments(alloc, lexed.text, &symbol.notes, &mut text)?;
        let Span { from, to } = symbol.span;
        let place = format!(in alloc; "{from}..{to} {:?} ", symbol.kind)?;
        text.extend_from_slice(place.as_bytes())?;
        let printed = symbol.lexeme().spelling();
        if !printed.is_empty() {
            text.extend_from_slice(printed)?;
            text.push(b' ')?;
        }
        text.extend_from_slice(symbol.spelling)?;
        text.push(b'\n')?;
    }
    if lexed.symbols.is_empty() && lexed.tail.is_empty() {
        text.extend_from_slice(b"no symbols\n")?;
    }
    comments(alloc, lexed.text, &lexed.tail, &mut text)?;
    Ok(text)
}

fn comments(
    alloc: Global,
    whole: &[u8],
    spans: &[Span],
    text: &mut Vec<u8>,
) -> Result<(), Trouble> {
    for span in spans {
        let Span { from, to } = *span;
        text.extend_from_slice(format!(in alloc; "{from}..{to} comment ")?.as_bytes())?;
        text.extend_from_slice(whole.get(from..to).unwrap_or(b""))?;
        text.push(b'\n')?;
    }
    Ok(())
}
