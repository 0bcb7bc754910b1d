//! Texts as trees: how many nodes and levels, which comments, or why there is none.

use crate::grown::{sort, word};
use crate::trouble::Trouble;
use pc_lex::lex;
use pc_parse::{depth_of, read};
use pc_syntax::{Path, Steps};
use std::alloc::Global;
use std::sync::ledger::Ledger;

/// `SORT TEXT`: the nodes and levels of the tree, or why there is none.
pub fn answer<L: Ledger>(
    alloc: Global,
    input: &[u8],
    work: &mut Steps<L>,
) -> Result<Vec<u8>, Trouble> {
    let (name, text) = word(input);
    let sort = sort(alloc, name)?;
    let lexed = match lex(alloc, text) {
        Ok(lexed) => lexed,
        Err(error) => return Ok(format!(in alloc; "{error}\n")?.into_bytes()),
    };
    let line = match read(alloc, sort, &lexed, work) {
        Ok(reading) => {
            let (nodes, levels) = (reading.tree.size(), reading.tree.depth());
            format!(in alloc; "{nodes} nodes, {levels} levels\n")?
        }
        Err(error) => format!(in alloc; "{error}\n")?,
    };
    Ok(line.into_bytes())
}

/// `SORT TEXT`: the levels of the tree of any depth and size.
pub fn depth(alloc: Global, input: &[u8]) -> Result<Vec<u8>, Trouble> {
    let (name, text) = word(input);
    let sort = sort(alloc, name)?;
    let Ok(lexed) = lex(alloc, text) else {
        return Err(Trouble::BadInput);
    };
    match depth_of(alloc, sort, &lexed)? {
        Some(levels) => Ok(format!(in alloc; "{levels} levels\n")?.into_bytes()),
        None => Ok(b"no tree\n".to_vec(alloc)?),
    }
}

/// `SORT PATH TEXT`: the comments that the node at the path keeps, one after another, and how many no node keeps.
pub fn notes<L: Ledger>(
    alloc: Global,
    input: &[u8],
    work: &mut Steps<L>,
) -> Result<Vec<u8>, Trouble> {
    let (name, rest) = word(input);
    let (path, text) = word(rest);
    let (sort, path) = (sort(alloc, name)?, Path::read(alloc, path)?);
    let Ok(lexed) = lex(alloc, text) else {
        return Err(Trouble::NoTree);
    };
    let Ok(reading) = read(alloc, sort, &lexed, work) else {
        return Err(Trouble::NoTree);
    };
    let Some(node) = reading.tree.at(&path) else {
        return Err(Trouble::NoTree);
    };
    let mut line = Vec::new(alloc);
    for note in node.notes() {
        line.extend_from_slice(note.bytes())?;
    }
    if line.is_empty() {
        line.extend_from_slice(b"none")?;
    }
    line.extend_from_slice(format!(in alloc; ", dropped {}\n", reading.dropped)?.as_bytes())?;
    Ok(line)
}
