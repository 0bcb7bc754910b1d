//! Printed texts, and the view `tree`.

use crate::grown::{node, sort, tree, word};
use crate::trouble::Trouble;
use pc_pretty::print;
use pc_syntax::{Path, Steps};
use pc_views::tree_view;
use std::alloc::Global;
use std::sync::ledger::Ledger;

/// `SORT PATH TEXT`: the printed text of the node at the path. At the path `/` that text has to read back as the same
/// tree.
pub fn answer<L: Ledger>(
    alloc: Global,
    input: &[u8],
    work: &mut Steps<L>,
) -> Result<Vec<u8>, Trouble> {
    let (name, rest) = word(input);
    let (path, _) = word(rest);
    let node = node(alloc, input, work)?;
    let mut text = print(alloc, &node)?;
    if Path::read(alloc, path)?.steps().is_empty() {
        let again = tree(alloc, sort(alloc, name)?, &text, work)?;
        if !again.same(&node) {
            text.extend_from_slice(b"reads back as another tree\n")?;
        }
    }
    Ok(text)
}

/// `SORT PATH TEXT`: the view `tree` of the node at the path; of a text of over 10,000 bytes how it begins.
pub fn view<L: Ledger>(
    alloc: Global,
    input: &[u8],
    work: &mut Steps<L>,
) -> Result<Vec<u8>, Trouble> {
    let node = node(alloc, input, work)?;
    let text = tree_view(alloc, &node)?;
    if text.len() <= 10_000 {
        return Ok(text);
    }
    let mut line = text.get(..10).unwrap_or(b"").to_vec(alloc)?;
    line.extend_from_slice(format!(in alloc; ".. of {} bytes\n", text.len())?.as_bytes())?;
    Ok(line)
}
