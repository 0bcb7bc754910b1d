//! What a block declares, in text order.

ghost use Rattle.std.specs.Prelude.{◌≡◌, ◌++◌, ◌∷◌, [], None, IfOk, ℕ, List, IsTrue, false};
ghost use Rattle.pc_scope.specs.Declarations.{names_at, declared_by_node, declared_at};
ghost use Rattle.pc_scope.specs.Entries.{all_declared, declared_by_name, definition_of, is_declarer, IsSilent, IsSilentBelow};
ghost use Rattle.pc_scope.specs.Headings as headings;

use crate::named::Named;
use crate::spelling::small;
use pc_syntax::{Kind, Path, Tree};
use std::alloc::{AllocError, Global};

/// Whether a node of this kind is a routine.
pub fn is_routine_kind(kind: Kind) -> bool
    ensures { result ≡ headings.is_routine_kind kind }
{
    matches!(kind, Kind::Procedure | Kind::Function | Kind::Funbody)
}

/// Adds what a name at a place declares: the name, unless it is a hole.
fn add_name(
    alloc: Global,
    name: &Tree,
    place: Path,
    is_definition: bool,
    into: &mut Vec<Named>,
) -> Result<(), AllocError>
    ensures { IfOk result (λ _. all_declared into.new.items ≡ all_declared into.old.items ++ declared_by_name (definition_of is_definition place) place name.now) }
{
    if name.kind().is_hole() {
        return Ok(());
    }
    into.push(Named {
        name: small(alloc, name.word())?,
        place,
        is_definition,
    })?;
    Ok(())
}

/// Adds the names of the list at a place.
fn add_names(alloc: Global, list: &Tree, at: &Path, into: &mut Vec<Named>) -> Result<(), AllocError>
    ensures { IfOk result (λ _. all_declared into.new.items ≡ all_declared into.old.items ++ names_at None at.now 1 list.now.kids) }
{
    for (i, name) in list.kid_slice().iter().enumerate() {
        let place = at.child(alloc, i as u32 + 1)?;
        add_name(alloc, name, place, false, into)?;
    }
    Ok(())
}

/// Adds what the node at a place declares by its own names.
fn add_own(alloc: Global, tree: &Tree, at: &Path, into: &mut Vec<Named>) -> Result<(), AllocError>
    ensures { IfOk result (λ _. all_declared into.new.items ≡ all_declared into.old.items ++ declared_by_node tree.now.kind at.now tree.now.kids) }
{
    let [first, ..] = tree.kid_slice() else {
        return Ok(());
    };
    let place = at.child(alloc, 1)?;
    match tree.kind() {
        Kind::Constdef | Kind::Typedef => add_name(alloc, first, place, true, into),
        Kind::Procedure | Kind::Function | Kind::Funbody => {
            add_name(alloc, first, place, false, into)
        }
        Kind::Vardef | Kind::Enum | Kind::Valparam | Kind::Varparam => {
            add_names(alloc, first, &place, into)
        }
        _ => Ok(()),
    }
}

/// Whether a node of this kind declares names of its own.
fn is_declarer(kind: Kind) -> bool
    ensures { result ≡ is_declarer kind }
{
    match kind {
        Kind::Constdef
        | Kind::Typedef
        | Kind::Vardef
        | Kind::Enum
        | Kind::Valparam
        | Kind::Varparam => true,
        _ => is_routine_kind(kind),
    }
}

/// Whether nothing is declared below a node.
fn is_silent_below(tree: &Tree) -> bool
    ensures { IsTrue result → IsSilentBelow tree.now }
{
    for kid in tree.kid_slice() {
        if is_declarer(kid.kind()) || !is_silent_below(kid) {
            return false;
        }
    }
    true
}

/// Whether a node is a statement part, which declares nothing: no places are made for what is below it.
fn is_silent(tree: &Tree) -> bool
    ensures { IsTrue result → IsSilent tree.now }
{
    matches!(tree.kind(), Kind::Compound) && is_silent_below(tree)
}

/// Adds the declarations below the node at a place; those inside routines aside.
pub fn add_below(
    alloc: Global,
    tree: &Tree,
    at: &Path,
    into: &mut Vec<Named>,
) -> Result<(), AllocError>
    ensures { IfOk result (λ _. all_declared into.new.items ≡ all_declared into.old.items ++ declared_at at.now 1 tree.now.kids) }
{
    for (i, kid) in tree.kid_slice().iter().enumerate() {
        if is_silent(kid) {
            continue;
        }
        let place = at.child(alloc, i as u32 + 1)?;
        add_own(alloc, kid, &place, into)?;
        if is_routine_kind(kid.kind()) {
            continue;
        }
        add_below(alloc, kid, &place, into)?;
    }
    Ok(())
}
