//! Places in a printed text.
//!
//! `text SORT PATH TEXT` prints that node; then `span PATH`, `range LINE:COLUMN-LINE:COLUMN` and `innermost FROM TO` speak
//! of its text.

use crate::grown::{node, number, range, word};
use crate::state::State;
use crate::trouble::Trouble;
use pc_lex::Span;
use pc_pretty::{Text, pretty};
use pc_syntax::{Path, Steps};
use std::alloc::Global;
use std::sync::ledger::Ledger;

pub fn answer<L: Ledger>(
    alloc: Global,
    state: &mut State,
    input: &[u8],
    work: &mut Steps<L>,
) -> Result<Vec<u8>, Trouble> {
    let (call, rest) = word(input);
    if call == b"text".as_slice() {
        state.tree = node(alloc, rest, work)?;
    }
    let text = pretty(alloc, &state.tree)?;
    match call {
        b"text" => Ok(text.bytes().to_vec(alloc)?),
        b"span" => told(alloc, text.span(&Path::read(alloc, rest)?)),
        b"range" => told(alloc, text.range(&range(alloc, rest)?)),
        b"innermost" => innermost(alloc, &text, rest),
        _ => Err(Trouble::BadInput),
    }
}

fn told(alloc: Global, span: Option<Span>) -> Result<Vec<u8>, Trouble> {
    match span {
        Some(Span { from, to }) => Ok(format!(in alloc; "{from}..{to}\n")?.into_bytes()),
        None => Ok(b"none\n".to_vec(alloc)?),
    }
}

fn innermost(alloc: Global, text: &Text, rest: &[u8]) -> Result<Vec<u8>, Trouble> {
    let (from, to) = word(rest);
    let span = Span {
        from: number(from)? as usize,
        to: number(to)? as usize,
    };
    match text.innermost(alloc, span)? {
        Some(path) => Ok(format!(in alloc; "{:?}\n", path.steps())?.into_bytes()),
        None => Ok(b"none\n".to_vec(alloc)?),
    }
}
