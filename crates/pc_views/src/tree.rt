//! The view `tree`: a line for each node.

ghost use Rattle.std.specs.Prelude.{◌≡◌, ◌++◌, IfOk};
ghost use Rattle.pc_views.specs.Limit.{Agrees};
ghost use Rattle.pc_views.specs.TreeView.{kid_path, shown_path, shown_word, line, lines_of, tree_view};

use crate::limit::{limited, text_limit};
use pc_syntax::Tree;
use std::alloc::{AllocError, Global};

/// The text of the view `tree`: a line for each node, each before what is below it. A line is the node's path, the name
/// of its kind and, where it has one, its word, with a space between two and a line feed at the end. A text of more than
/// 10,000,000 bytes is the one line `view too large` instead. Fails for want of memory only.
#[tactic(auto, unfolding(crate::specs::TreeView::tree_view))]
pub fn tree_view(alloc: Global, tree: &Tree) -> Result<Vec<u8>, AllocError>
    ensures { IfOk result (λ text. text.items ≡ tree_view tree.now) }
{
    let mut text = Vec::new(alloc);
    let mut path = Vec::new(alloc);
    push_lines(alloc, tree, &mut path, &mut text)?;
    limited(alloc, text)
}

/// Adds the lines of the node with this path and of all nodes below it, and stops where the text is over the limit.
fn push_lines(
    alloc: Global,
    tree: &Tree,
    path: &mut Vec<u8>,
    text: &mut Vec<u8>,
) -> Result<(), AllocError>
    ensures path { IfOk result (λ _. path.new.items ≡ path.old.items) }
    ensures text { IfOk result (λ _. Agrees text.new.items (text.old.items ++ lines_of path.old.items tree.now)) }
{
    push_line(text, path, tree.kind().name(), tree.word())?;
    let length = path.len();
    for (i, kid) in tree.kid_slice().iter().enumerate() {
        if text.len() > text_limit() {
            return Ok(());
        }
        push_step(alloc, path, i as u64 + 1)?;
        push_lines(alloc, kid, path, text)?;
        path.truncate(length);
    }
    Ok(())
}

/// Adds the line of a node.
fn push_line(text: &mut Vec<u8>, path: &[u8], name: &[u8], word: &[u8]) -> Result<(), AllocError>
    ensures { IfOk result (λ _. text.new.items ≡ text.old.items ++ line path.now name.now word.now) }
{
    push_path(text, path)?;
    text.push(b' ')?;
    text.extend_from_slice(name)?;
    push_word(text, word)?;
    text.push(b'\n')?;
    Ok(())
}

/// Adds a path, `/` for that of the root.
fn push_path(text: &mut Vec<u8>, path: &[u8]) -> Result<(), AllocError>
    ensures { IfOk result (λ _. text.new.items ≡ text.old.items ++ shown_path path.now) }
{
    if path.is_empty() {
        text.push(b'/')?;
    } else {
        text.extend_from_slice(path)?;
    }
    Ok(())
}

/// Adds a space and the word, where it isn't empty.
fn push_word(text: &mut Vec<u8>, word: &[u8]) -> Result<(), AllocError>
    ensures { IfOk result (λ _. text.new.items ≡ text.old.items ++ shown_word word.now) }
{
    if !word.is_empty() {
        text.push(b' ')?;
        text.extend_from_slice(word)?;
    }
    Ok(())
}

/// Makes the path that of the kid with a number.
fn push_step(alloc: Global, path: &mut Vec<u8>, number: u64) -> Result<(), AllocError>
    ensures { IfOk result (λ _. path.new.items ≡ kid_path path.old.items number) }
{
    path.push(b'/')?;
    let digits = format!(in alloc; "{number}")?;
    path.extend_from_slice(digits.as_bytes())?;
    Ok(())
}
