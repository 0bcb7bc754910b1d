//! Calls of a session, one after another in a section.
//!
//! `load TEXT`, `put PATH TEMPLATE`, `add PATH NUMBER TEMPLATE`, `fill PATH TEXT`, `retype RANGE TEXT`, `cut PATH`, `undo`, `redo`,
//! `revert`, `settle` and `look`: what is answered, and then the printed text of the session's program. `short` before a call leaves
//! that text out.

use crate::grown::{range, small, word};
use crate::state::State;
use crate::trouble::Trouble;
use pc_command::{Refusal, ViewName};
use pc_session::{Accepted, Session};
use pc_syntax::{Path, Steps};
use std::alloc::Global;
use std::sync::ledger::Ledger;

pub fn answer<L: Ledger>(
    alloc: Global,
    state: &mut State,
    input: &[u8],
    work: &mut Steps<L>,
) -> Result<Vec<u8>, Trouble> {
    let session = &mut state.session;
    if let Some(call) = input.strip_prefix(b"short ") {
        return called(alloc, session, call, work);
    }
    let mut text = called(alloc, session, input, work)?;
    let shown = session.show(alloc, &ViewName::Syntax, work)?;
    text.extend_from_slice(&shown)?;
    Ok(text)
}

fn called<L: Ledger>(
    alloc: Global,
    session: &mut Session,
    input: &[u8],
    work: &mut Steps<L>,
) -> Result<Vec<u8>, Trouble> {
    let (call, rest) = word(input);
    let (place, new) = word(rest);
    let outcome = match call {
        b"load" => session.load(alloc, rest, work),
        b"put" => session.put(alloc, &Path::read(alloc, place)?, new, work),
        b"add" => {
            let (k, name) = word(new);
            session.add(alloc, &Path::read(alloc, place)?, small(k)?, name, work)
        }
        b"fill" => session.fill(alloc, &Path::read(alloc, place)?, new, work),
        b"retype" => session.retype(alloc, &range(alloc, place)?, new, work),
        b"cut" => session.cut(alloc, &Path::read(alloc, place)?, work),
        _ => return moved(alloc, session, call, work),
    };
    match outcome {
        Ok(Accepted { count, dropped }) => {
            Ok(format!(in alloc; "count {count}, dropped {dropped}\n")?.into_bytes())
        }
        Err(refusal) => refused(alloc, refusal),
    }
}

fn moved<L: Ledger>(
    alloc: Global,
    session: &mut Session,
    call: &[u8],
    work: &mut Steps<L>,
) -> Result<Vec<u8>, Trouble> {
    match call {
        b"undo" => counted(alloc, session.undo(work)),
        b"redo" => counted(alloc, session.redo(work)),
        b"revert" => {
            session.revert();
            Ok(b"reverted\n".to_vec(alloc)?)
        }
        b"settle" => {
            session.settle();
            Ok(b"settled\n".to_vec(alloc)?)
        }
        b"look" => {
            let (count, kind) = (session.count(), session.tree().kind());
            let size = session.tree().size();
            Ok(format!(in alloc; "count {count}, {kind:?}, {size} nodes\n")?.into_bytes())
        }
        _ => Err(Trouble::BadInput),
    }
}

fn counted(alloc: Global, outcome: Result<u64, Refusal>) -> Result<Vec<u8>, Trouble> {
    match outcome {
        Ok(count) => Ok(format!(in alloc; "count {count}\n")?.into_bytes()),
        Err(refusal) => refused(alloc, refusal),
    }
}

fn refused(alloc: Global, refusal: Refusal) -> Result<Vec<u8>, Trouble> {
    Ok(format!(in alloc; "refused: {refusal}\n")?.into_bytes())
}
