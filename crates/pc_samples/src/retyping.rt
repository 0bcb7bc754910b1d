//! A program's printed text with a range replaced.
//!
//! `text SORT PATH TEXT` prints that node, a program; `try RANGE TEXT` says what is read then, and `keep RANGE TEXT` goes on with it.

use crate::grown::{node, range, word};
use crate::state::State;
use crate::trouble::Trouble;
use pc_partial::retype;
use pc_pretty::{pretty, print};
use pc_syntax::Steps;
use std::alloc::Global;
use std::sync::ledger::Ledger;

pub fn answer<L: Ledger>(
    alloc: Global,
    state: &mut State,
    input: &[u8],
    work: &mut Steps<L>,
) -> Result<Vec<u8>, Trouble> {
    let (call, rest) = word(input);
    match call {
        b"text" => {
            state.tree = node(alloc, rest, work)?;
            shortened(alloc, print(alloc, &state.tree)?)
        }
        b"try" => replaced(alloc, state, rest, false, work),
        b"keep" => replaced(alloc, state, rest, true, work),
        _ => Err(Trouble::BadInput),
    }
}

// The new printed text, and how many comments are dropped; or why there is none.
fn replaced<L: Ledger>(
    alloc: Global,
    state: &mut State,
    rest: &[u8],
    keeps: bool,
    work: &mut Steps<L>,
) -> Result<Vec<u8>, Trouble> {
    let (place, new) = word(rest);
    let range = range(alloc, place)?;
    let text = pretty(alloc, &state.tree)?;
    match retype(alloc, &state.tree, &text, &range, new, work) {
        Ok(reading) => {
            let mut answer = shortened(alloc, print(alloc, &reading.tree)?)?;
            let dropped = format!(in alloc; "dropped {}\n", reading.dropped)?;
            answer.extend_from_slice(dropped.as_bytes())?;
            if keeps {
                state.tree = reading.tree;
            }
            Ok(answer)
        }
        Err(error) => Ok(format!(in alloc; "{error}\n")?.into_bytes()),
    }
}

// Of a text of over 10,000 bytes its length.
fn shortened(alloc: Global, text: Vec<u8>) -> Result<Vec<u8>, Trouble> {
    if text.len() <= 10_000 {
        return Ok(text);
    }
    Ok(format!(in alloc; "{} bytes\n", text.len())?.into_bytes())
}
