//! The names of a routine where its block ends.

ghost use Rattle.std.specs.Prelude.{◌<◌, length, IfOk};
ghost use Rattle.pc_block_names.specs.Found.{IsMeant, AreMeant, AtNames};

use crate::finding::meaning_at;
use pc_names::BlockId;
use pc_own_names::{DeclaredName, OwnName};
use pc_places::Tables;
use std::alloc::{AllocError, Global};

/// What the names that a routine declares mean where its block ends, from the tables as they stand there. Only memory can fail. Work: the
/// lengths of the names, and for each of them one look-up in a hash table for each block up to the one that declares it.
pub fn own_names(
    alloc: Global,
    tables: &Tables,
    block: BlockId,
    names: Vec<DeclaredName>,
) -> Result<Vec<OwnName>, AllocError>
    requires { block.0 < length tables.now.names.chains }
    ensures { IfOk result (λ xs. AtNames tables.now block.0 names.items xs.items) }
{
    let own = meant_names(alloc, tables, block, names)?;
    Ok(own)
}

/// The names with their meanings, in their order.
fn meant_names(
    alloc: Global,
    tables: &Tables,
    block: BlockId,
    names: Vec<DeclaredName>,
) -> Result<Vec<OwnName>, AllocError>
    requires { block.0 < length tables.now.names.chains }
    ensures { IfOk result (λ xs. AreMeant tables.now block.0 names.items xs.items) }
{
    let mut small = Vec::new(alloc);
    let mut own = Vec::new(alloc);
    for declared in names {
        let name = meant_name(tables, block, &mut small, declared)?;
        own.push(name)?;
    }
    Ok(own)
}

/// A name with its meaning.
fn meant_name(
    tables: &Tables,
    block: BlockId,
    small: &mut Vec<u8>,
    declared: DeclaredName,
) -> Result<OwnName, AllocError>
    requires { block.0 < length tables.now.names.chains }
    ensures { IfOk result (λ x. IsMeant tables.now block.0 declared x) }
{
    let meaning = meaning_at(tables, block, small, declared.name.bytes())?;
    Ok(OwnName {
        name: declared.name,
        kind: declared.kind,
        meaning,
    })
}
