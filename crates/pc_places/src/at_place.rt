//! Parts of a declaration at a place for which the tables stand.

ghost use Rattle.std.specs.Prelude.{◌≡◌, ◌<◌, ℕ, length, true, IfOk, OnOk};
ghost use Rattle.pc_syntax.specs.Classes.{has};
ghost use Rattle.pc_syntax.specs.declared.class.Class.TheVariants as class;
ghost use Rattle.pc_rules.specs.Meanings.{Local, Outside};
ghost use Rattle.pc_environment.specs.Decorating.{attributes_at};
ghost use Rattle.pc_facts.specs.Shows.{ShowsName, ShowsNode};
ghost use Rattle.pc_places.specs.Places.{known, IsPlace, Keeps};
ghost use Rattle.pc_places.specs.Scenes.{unsigned_at};

use crate::constants::constant;
use crate::names::used_name;
use crate::tables::Tables;
use pc_facts::{Facts, Named};
use pc_names::BlockId;
use pc_syntax::Tree;
use std::alloc::{AllocError, Global};

/// What a used name means in a declaration of the block, or a hole in its place, but for the parameters and the result of a routine. Only
/// memory can fail.
pub fn name_at_place(tables: &mut Tables, block: BlockId, node: &Tree) -> Result<Named, AllocError>
    requires { block.0 < length tables.old.names.chains }
    ensures shows { IfOk result (λ n. (owner : ℕ) (out : Outside) (l : Local) → has class.Name node.now.kind ≡ true → l.using ≡ true → IsPlace tables.old block.0 owner out l → ShowsName (known tables.new) n (unsigned_at (attributes_at out l node.now))) }
    ensures keeps { OnOk result (Keeps tables.old tables.new) }
{
    let named = used_name(
        &tables.names,
        &tables.types,
        tables.declarations.as_slice(),
        &[],
        block,
        &mut tables.small,
        node,
    )?;
    Ok(named)
}

/// What is found at a constant in a declaration of the block. Only memory can fail.
pub fn constant_at_place(
    alloc: Global,
    tables: &mut Tables,
    block: BlockId,
    node: &Tree,
) -> Result<Facts, AllocError>
    requires block { block.0 < length tables.old.names.chains }
    requires class { has class.Constant node.now.kind ≡ true }
    ensures shows { IfOk result (λ f. (owner : ℕ) (out : Outside) (l : Local) → IsPlace tables.old block.0 owner out l → ShowsNode (known tables.new) f (attributes_at out l node.now)) }
    ensures keeps { OnOk result (Keeps tables.old tables.new) }
{
    let found = constant(
        alloc,
        &tables.types,
        &tables.names,
        tables.declarations.as_slice(),
        &[],
        block,
        &mut tables.texts,
        &mut tables.small,
        node,
    )?;
    Ok(found)
}
