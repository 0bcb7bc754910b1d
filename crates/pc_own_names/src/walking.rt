//! The names that nodes declare, on the way through a tree.

ghost use Rattle.std.specs.Prelude.{◌≡◌, OnOk};
ghost use Rattle.pc_scope.specs.Headings.{is_routine_kind, names_of, names_of_first};
ghost use Rattle.pc_own_names.specs.Noting.{Notes};
ghost use Rattle.pc_own_names.specs.Walking.{all_of_kind, name_here, first_listed, own_names, below_node};

use crate::noting::note_word;
use crate::own_name::DeclaredName;
use pc_names::Names;
use pc_syntax::{Kind, Tree};
use std::alloc::{AllocError, Global};

/// What the nodes below a node declare is noted, in text order; what stands inside routines aside. Only memory can fail. Work: one visit
/// for each node, and one look-up in a hash table for each name that is declared.
pub(crate) fn note_below(
    alloc: Global,
    names: &mut Names,
    found: &mut Vec<DeclaredName>,
    node: &Tree,
) -> Result<(), AllocError>
    ensures { OnOk result (Notes (below_node node.now) names.old.texts names.new.texts found.old.items found.new.items) }
{
    if is_routine(node.kind()) {
        return Ok(());
    }
    for kid in node.kid_slice() {
        note_own(alloc, names, found, kid)?;
        note_below(alloc, names, found, kid)?;
    }
    Ok(())
}

/// Whether a node of this kind is a routine.
fn is_routine(kind: Kind) -> bool
    ensures { result ≡ is_routine_kind kind }
{
    matches!(kind, Kind::Procedure | Kind::Function | Kind::Funbody)
}

/// What a node declares by its own names is noted.
fn note_own(
    alloc: Global,
    names: &mut Names,
    found: &mut Vec<DeclaredName>,
    node: &Tree,
) -> Result<(), AllocError>
    ensures { OnOk result (Notes (all_of_kind node.now.kind (own_names node.now.kind node.now.kids)) names.old.texts names.new.texts found.old.items found.new.items) }
{
    match node.kind() {
        Kind::Constdef | Kind::Typedef | Kind::Procedure | Kind::Function | Kind::Funbody => {
            note_first(alloc, names, found, node)?;
            Ok(())
        }
        Kind::Vardef | Kind::Enum | Kind::Valparam | Kind::Varparam => {
            note_list(alloc, names, found, node)?;
            Ok(())
        }
        _ => Ok(()),
    }
}

/// The name that a node has as its first kid is noted.
fn note_first(
    alloc: Global,
    names: &mut Names,
    found: &mut Vec<DeclaredName>,
    node: &Tree,
) -> Result<(), AllocError>
    ensures { OnOk result (Notes (all_of_kind node.now.kind (first_listed node.now.kids)) names.old.texts names.new.texts found.old.items found.new.items) }
{
    let kind = node.kind();
    let Some(name) = node.kid(1) else {
        return Ok(());
    };
    note_name(alloc, names, found, name, kind)?;
    Ok(())
}

/// The names of the list that a node has as its first kid are noted.
fn note_list(
    alloc: Global,
    names: &mut Names,
    found: &mut Vec<DeclaredName>,
    node: &Tree,
) -> Result<(), AllocError>
    ensures { OnOk result (Notes (all_of_kind node.now.kind (names_of_first node.now.kids)) names.old.texts names.new.texts found.old.items found.new.items) }
{
    let kind = node.kind();
    let Some(list) = node.kid(1) else {
        return Ok(());
    };
    note_names(alloc, names, found, list, kind)?;
    Ok(())
}

/// The names of a list, which a node of this kind declares, are noted.
fn note_names(
    alloc: Global,
    names: &mut Names,
    found: &mut Vec<DeclaredName>,
    list: &Tree,
    kind: Kind,
) -> Result<(), AllocError>
    ensures { OnOk result (Notes (all_of_kind kind (names_of list.now.kids)) names.old.texts names.new.texts found.old.items found.new.items) }
{
    for name in list.kid_slice() {
        note_name(alloc, names, found, name, kind)?;
    }
    Ok(())
}

/// A name that a node of this kind declares is noted; a hole is none.
fn note_name(
    alloc: Global,
    names: &mut Names,
    found: &mut Vec<DeclaredName>,
    name: &Tree,
    kind: Kind,
) -> Result<(), AllocError>
    ensures { OnOk result (Notes (all_of_kind kind (name_here name.now)) names.old.texts names.new.texts found.old.items found.new.items) }
{
    if name.kind().is_hole() {
        return Ok(());
    }
    note_word(alloc, names, found, name.word(), kind)?;
    Ok(())
}
