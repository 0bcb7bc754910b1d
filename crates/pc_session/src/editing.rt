//! What an edit by place makes of a program.

ghost use Rattle.std.specs.Prelude.{◌≡◌};
ghost use Rattle.pc_session.specs.Editing.{takes_element, Puts, Adds, Fills, Cuts};
ghost use Rattle.pc_partial.specs.Retyping.{StepsOnSymbols};
ghost use Rattle.pc_session.specs.Making.{MakesTemplate, refused};

use crate::load::symbols_of;
use crate::made::Made;
use crate::measuring::unfilled;
use pc_command::Refusal;
use pc_parse::read_or_measure;
use pc_syntax::{EditError, Path, Steps, Tree, template};
use std::alloc::Global;
use std::sync::ledger::Ledger;

/// The tree with the template of a name in the place of the node at a path.
pub fn with_template(alloc: Global, tree: &Tree, path: &Path, name: &[u8]) -> Result<Made, Refusal>
    ensures { Puts path.now name.now tree.now result }
{
    if tree.at(path).is_none() {
        return Err(Refusal::NoPlace);
    }
    let piece = template_named(alloc, name)?;
    match tree.put(alloc, path, &piece) {
        Ok(tree) => Ok(Made { tree, dropped: 0 }),
        Err(error) => Err(refused(error)),
    }
}

/// The tree with the template of a name as element `k`, from 1, of the list at a path.
pub fn with_added_template(
    alloc: Global,
    tree: &Tree,
    path: &Path,
    k: u32,
    name: &[u8],
) -> Result<Made, Refusal>
    ensures { Adds path.now k name.now tree.now result }
{
    if !takes_element(tree, path, k) {
        return Err(Refusal::NoPlace);
    }
    let piece = template_named(alloc, name)?;
    match tree.add(alloc, path, k, &piece) {
        Ok(tree) => Ok(Made { tree, dropped: 0 }),
        Err(error) => Err(refused(error)),
    }
}

/// The tree with the tree that a text writes in the place of the node at a path, which has its sort.
pub fn with_text<L: Ledger>(
    alloc: Global,
    tree: &Tree,
    path: &Path,
    text: &[u8],
    work: &mut Steps<L>,
) -> Result<Made, Refusal>
    ensures made { Fills path.now text.now tree.now result }
    ensures work { StepsOnSymbols text.now work.old work.new }
{
    let Some(old) = tree.at(path) else {
        return Err(Refusal::NoPlace);
    };
    let lexed = match symbols_of(alloc, text) {
        Ok(lexed) => lexed,
        Err(refusal) => return Err(refusal),
    };
    let Some(sort) = old.kind().sort() else {
        return Err(Refusal::NotFit(0));
    };
    let reading = match read_or_measure(alloc, sort, &lexed, work) {
        Ok(reading) => reading,
        Err(error) => return Err(unfilled(tree, path, sort, &lexed, error)),
    };
    let dropped = reading.dropped;
    match tree.put(alloc, path, &reading.tree) {
        Ok(tree) => Ok(Made { tree, dropped }),
        Err(error) => Err(refused(error)),
    }
}

/// The tree without the node at a path.
pub fn without_node(alloc: Global, tree: &Tree, path: &Path) -> Result<Made, Refusal>
    ensures { Cuts path.now tree.now result }
{
    match tree.cut(alloc, path) {
        Ok(tree) => Ok(Made { tree, dropped: 0 }),
        Err(error) => Err(refused(error)),
    }
}

// Whether there is a list at the path that can take an element with the number `k`, from 1.
fn takes_element(tree: &Tree, path: &Path, k: u32) -> bool
    ensures { result ≡ takes_element path.now k tree.now }
{
    match tree.at(path) {
        Some(node) => node.has_room(k),
        None => false,
    }
}

// The template with a name.
fn template_named(alloc: Global, name: &[u8]) -> Result<Tree, Refusal>
    ensures { MakesTemplate name.now result }
{
    let Ok(found) = template(alloc, name) else {
        return Err(Refusal::NoMemory);
    };
    match found {
        Some(piece) => Ok(piece),
        None => Err(Refusal::NoTemplate),
    }
}

/// The refusal of an edit that a tree answers so.
pub fn refused(error: EditError) -> Refusal
    ensures { result ≡ refused error }
{
    match error {
        EditError::NoPlace => Refusal::NoPlace,
        EditError::NotFit => Refusal::NotFit(0),
        EditError::TooDeep(depth) => Refusal::TooDeep(depth),
        EditError::TooLarge(size) => Refusal::TooLarge(size),
        EditError::NoMemory => Refusal::NoMemory,
    }
}
