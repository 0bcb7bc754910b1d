//! The names that a routine declares in its heading and its own block.

ghost use Rattle.std.specs.Prelude.{◌≡◌, [], if◌then◌else◌, IfOk, IfSome, IsNone, OnOk};
ghost use Rattle.pc_syntax.specs.Plain.{Plain, Nil};
ghost use Rattle.pc_syntax.specs.declared.kind.Kind.TheVariants as kinds;
ghost use Rattle.pc_scope.specs.Blocks.{block_kids};
ghost use Rattle.pc_scope.specs.Entries as entries;
ghost use Rattle.pc_rules.specs.Routines.{Routine};
ghost use Rattle.pc_decl.specs.Declared.{given_names};
ghost use Rattle.pc_decl.specs.Nodes.{kids_at};
ghost use Rattle.pc_own_names.specs.Noting.{Notes};
ghost use Rattle.pc_own_names.specs.OwnKinds.{own_kinds, AreDeclared, HasSame};
ghost use Rattle.pc_own_names.specs.Walking.{in_heading, in_trees};

use crate::own_name::DeclaredName;
use crate::walking::note_below;
use pc_names::Names;
use pc_syntax::{Kind, Tree};
use std::alloc::{AllocError, Global};

/// The names that a routine declares in its heading and its own block, in text order, of equal ones the first alone, each with the kind
/// of the node that declares it; `before` are the names that a later declaration has from its forward heading, `is_later` whether it is
/// one. Only memory can fail. Work: one visit for each node of the heading and the own block, and one look-up in a hash table for each
/// name that is declared.
pub fn declared_names(
    alloc: Global,
    before: Names,
    is_later: bool,
    routine: &Tree,
) -> Result<Vec<DeclaredName>, AllocError>
    ensures { IfOk result (λ xs. (t : Plain) (r : Routine) → kids_at t r.place ≡ routine.now.kids → r.is_later ≡ is_later → HasSame before.texts (given_names r) → AreDeclared xs.items (own_kinds t r)) }
{
    let mut names = before;
    let mut found = Vec::new(alloc);
    note_heading(alloc, &mut names, &mut found, is_later, routine)?;
    note_block(alloc, &mut names, &mut found, routine)?;
    Ok(found)
}

/// What the heading of a routine declares is noted; that of a later declaration declares nothing.
fn note_heading(
    alloc: Global,
    names: &mut Names,
    found: &mut Vec<DeclaredName>,
    is_later: bool,
    routine: &Tree,
) -> Result<(), AllocError>
    ensures { OnOk result (Notes (if is_later then [] else in_heading routine.now.kids) names.old.texts names.new.texts found.old.items found.new.items) }
{
    if is_later {
        return Ok(());
    }
    note_parameters(alloc, names, found, routine)?;
    Ok(())
}

/// The parameters of a routine, its second kid, are noted.
fn note_parameters(
    alloc: Global,
    names: &mut Names,
    found: &mut Vec<DeclaredName>,
    routine: &Tree,
) -> Result<(), AllocError>
    ensures { OnOk result (Notes (in_heading routine.now.kids) names.old.texts names.new.texts found.old.items found.new.items) }
{
    let Some(list) = routine.kid(2) else {
        return Ok(());
    };
    if !is_parameters(list.kind()) {
        return Ok(());
    }
    note_below(alloc, names, found, list)?;
    Ok(())
}

/// Whether a node of this kind is a list of parameters.
fn is_parameters(kind: Kind) -> bool
    ensures { result ≡ entries.is_parameters kind }
{
    matches!(kind, Kind::Params)
}

/// What the own block of a routine declares is noted.
fn note_block(
    alloc: Global,
    names: &mut Names,
    found: &mut Vec<DeclaredName>,
    routine: &Tree,
) -> Result<(), AllocError>
    ensures { OnOk result (Notes (in_trees (block_kids routine.now.kids)) names.old.texts names.new.texts found.old.items found.new.items) }
{
    let Some(block) = block_of(routine) else {
        return Ok(());
    };
    note_below(alloc, names, found, block)?;
    Ok(())
}

/// The block among the kids of a routine, if it has one.
fn block_of(routine: &Tree) -> Option<&Tree>
    ensures kind { IfSome result (λ b. b.now.kind ≡ kinds.Block) }
    ensures some { IfSome result (λ b. b.now.kids ≡ block_kids routine.now.kids) }
    ensures none { IsNone result → block_kids routine.now.kids ≡ Nil }
{
    for kid in routine.kid_slice() {
        if matches!(kid.kind(), Kind::Block) {
            return Some(kid);
        }
    }
    None
}
