//! What is kept of a routine: the names that it declares, each with what it means where the routine's block ends.

ghost use Rattle.std.specs.Prelude.{◌≡◌, ◌<◌, ◌≤◌, length, option_map, IfOk, OnOk};
ghost use Rattle.std.specs.Option.{ForSome};
ghost use Rattle.pc_names.specs.Chains.{chain_around};
ghost use Rattle.pc_places.specs.Parameters.{AreNamed};
ghost use Rattle.pc_resolve.specs.Blocks.{ResolvesBare};
ghost use Rattle.pc_resolve.specs.Kept.{DeclaresNames, KeepsOne, ShowsAtEnd};

use crate::resolver::Resolver;
use pc_block_laws::blocks_know_each_name_once;
use pc_block_names::{given_names, own_names};
use pc_names::BlockId;
use pc_openings::open_block;
use pc_own_names::{DeclaredName, RoutineNames, declared_names};
use pc_places::Tables;
use pc_routine_sites::RoutineSite;
use pc_standing::routines_are_of_their_block;
use pc_syntax::{Key, Tree};
use std::alloc::{AllocError, Global};

/// The names that the routine with this node declares, from where its block begins. Only memory can fail.
pub(crate) fn names_declared(
    alloc: Global,
    tables: &Tables,
    site: &RoutineSite,
    node: &Tree,
) -> Result<Vec<DeclaredName>, AllocError>
    requires { AreNamed (length tables.now.names.texts) site.now.parameters.items }
    ensures { IfOk result (λ xs. DeclaresNames tables.now site.now node.now xs.items) }
{
    let given = given_names(alloc, tables, site)?;
    let declared = declared_names(alloc, given, site.is_later, node)?;
    Ok(declared)
}

/// Keeps the routine with this site, which declares these names, at this index; the tables are to stand where its block ends. Only memory can
/// fail.
pub(crate) fn keep(
    alloc: Global,
    tables: &Tables,
    kept: &mut Vec<RoutineNames>,
    index: usize,
    declared: Vec<DeclaredName>,
    block: BlockId,
    site: &RoutineSite,
) -> Result<(), AllocError>
    requires block { block.0 < length tables.now.names.chains }
    requires index { index ≤ length kept.old.items }
    ensures { OnOk result (KeepsOne tables.now declared.items block.0 site.now index kept.old.items kept.new.items) }
{
    let names = names_of(alloc, tables, declared, block, site)?;
    kept.insert(index, names)?;
    Ok(())
}

/// What is kept of that routine.
fn names_of(
    alloc: Global,
    tables: &Tables,
    declared: Vec<DeclaredName>,
    block: BlockId,
    site: &RoutineSite,
) -> Result<RoutineNames, AllocError>
    requires block { block.0 < length tables.now.names.chains }
    ensures { IfOk result (λ x. ShowsAtEnd tables.now declared.items block.0 site.now x) }
{
    let names = own_names(alloc, tables, block, declared)?;
    let key = copy_key(alloc, &site.key)?;
    Ok(RoutineNames {
        owner: site.owner,
        key,
        is_later: site.is_later,
        names,
    })
}

/// The same key once more, if there is one.
fn copy_key(alloc: Global, key: &Option<Key>) -> Result<Option<Key>, AllocError>
    ensures { IfOk result (λ k. k ≡ key.now) }
{
    match key {
        Some(own) => {
            let copy = own.copy(alloc)?;
            Ok(Some(copy))
        }
        None => Ok(None),
    }
}

/// Keeps a routine without a block: an empty one is begun for its parameters. Only memory and numbers can fail.
pub(crate) fn no_block(
    alloc: Global,
    resolver: &mut Resolver,
    around: Option<BlockId>,
    site: &RoutineSite,
    node: &Tree,
) -> Result<(), AllocError>
    requires around { ForSome around (λ b. b.0 < length resolver.old.tables.names.chains) }
    requires named { AreNamed (length resolver.old.tables.names.texts) site.now.parameters.items }
    ensures { OnOk result (ResolvesBare (chain_around resolver.old.tables.names.chains (option_map (λ b. b.0) around)) site.now node.now resolver.old resolver.new) }
{
    resolver.tables.types.stays_in_order();
    blocks_know_each_name_once();
    routines_are_of_their_block();
    let declared = names_declared(alloc, &resolver.tables, site, node)?;
    let index = resolver.kept.as_slice().len();
    let opened = open_block(
        &mut resolver.tables,
        around,
        site.parameters.as_slice(),
        None,
    )?;
    keep(
        alloc,
        &resolver.tables,
        &mut resolver.kept,
        index,
        declared,
        opened,
        site,
    )?;
    Ok(())
}
