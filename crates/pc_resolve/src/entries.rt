//! Entries, seen from the nodes above.

ghost use Rattle.std.specs.Prelude.{◌≡◌, ◌++◌, [], ◌∷◌, IfOk, OnOk};
ghost use Rattle.pc_facts.specs.Shows.{value_of};
ghost use Rattle.pc_rules.specs.Attributes.{at_kid};
ghost use Rattle.pc_rules.specs.Errors.{from_place};

use crate::resolver::BlockEntries;
use pc_declaration_parts::Parts;
use pc_facts::{Facts, add_kid};
use pc_report::ErrorEntry;
use pc_syntax::Path;
use std::alloc::{AllocError, Global};

/// The entries of a block, seen from it: those of its five parts.
pub(crate) fn block_entries(
    alloc: Global,
    parts: Parts,
    routines: Vec<ErrorEntry>,
    body: Vec<ErrorEntry>,
) -> Result<Vec<ErrorEntry>, AllocError>
    ensures { IfOk result (λ es. es.items ≡ at_kid 1 (value_of parts.constants.judgement).entries.items ++ at_kid 2 (value_of parts.types.judgement).entries.items ++ at_kid 3 (value_of parts.variables.judgement).entries.items ++ at_kid 4 routines.items ++ at_kid 5 body.items) }
{
    let Parts {
        constants,
        types,
        variables,
    } = parts;
    let mut entries = Vec::new(alloc);
    add_kid(&mut entries, 1, entries_of(constants))?;
    add_kid(&mut entries, 2, entries_of(types))?;
    add_kid(&mut entries, 3, entries_of(variables))?;
    add_kid(&mut entries, 4, routines)?;
    add_kid(&mut entries, 5, body)?;
    Ok(entries)
}

/// The entries at a node, where a value is needed.
fn entries_of(found: Facts) -> Vec<ErrorEntry>
    ensures { result.items ≡ (value_of found.judgement).entries.items }
{
    found.judgement.into_value().entries
}

/// The entries of a node at a place, seen from the root.
pub(crate) fn seen_from_root(
    alloc: Global,
    place: &Path,
    entries: Vec<ErrorEntry>,
) -> Result<Vec<ErrorEntry>, AllocError>
    ensures { IfOk result (λ es. es.items ≡ from_place place.now entries.items) }
{
    let mut seen = entries;
    let mut rest = place.steps();
    while let Some((last, front)) = rest.split_last() {
        let mut above = Vec::new(alloc);
        add_kid(&mut above, *last, seen)?;
        seen = above;
        rest = front;
    }
    Ok(seen)
}

/// The entries of a routine, seen from the root: those of its heading and of its block, which is this kid, and then those of the routines
/// inside it.
pub(crate) fn routine_entries(
    alloc: Global,
    place: &Path,
    number: u32,
    heading: Vec<ErrorEntry>,
    block: BlockEntries,
) -> Result<Vec<ErrorEntry>, AllocError>
    ensures { IfOk result (λ es. es.items ≡ from_place place.now (heading.items ++ at_kid number block.own.items) ++ block.inside.items) }
{
    let BlockEntries { own, inside } = block;
    let mut entries = heading;
    add_kid(&mut entries, number, own)?;
    let mut all = seen_from_root(alloc, place, entries)?;
    add_all(&mut all, inside)?;
    Ok(all)
}

/// More entries behind those that there are.
pub(crate) fn add_all(
    entries: &mut Vec<ErrorEntry>,
    more: Vec<ErrorEntry>,
) -> Result<(), AllocError>
    ensures { OnOk result (entries.new.items ≡ entries.old.items ++ more.items) }
{
    for entry in more {
        entries.push(entry)?;
    }
    Ok(())
}

/// No entries.
pub(crate) fn no_entries(alloc: Global) -> BlockEntries
    ensures own { result.own.items ≡ [] }
    ensures inside { result.inside.items ≡ [] }
{
    BlockEntries {
        own: Vec::new(alloc),
        inside: Vec::new(alloc),
    }
}

/// The place of the list of the routines in a block that is this kid of a routine with this place.
pub(crate) fn list_place(alloc: Global, place: &Path, number: u32) -> Result<Path, AllocError>
    ensures { IfOk result (λ p. p ≡ place.now ++ number ∷ 4 ∷ []) }
{
    let block = place.child(alloc, number)?;
    let list = block.child(alloc, 4)?;
    Ok(list)
}
