//! A block is begun (ISO 7185, 6.2.2).

ghost use Rattle.std.specs.Prelude.{◌≡◌, ◌<◌, length, option_copied, option_map, IfOk, OnOk};
ghost use Rattle.std.specs.Option.{ForSome};
ghost use Rattle.pc_syntax.specs.declared.kind.Kind.TheVariants as kind;
ghost use Rattle.pc_names.specs.Chains.{chain_around};
ghost use Rattle.pc_rules.specs.OwnBlock.{declared_in};
ghost use Rattle.pc_places.specs.Parameters.{AreNamed};
ghost use Rattle.pc_openings.specs.Announced.{Announced};
ghost use Rattle.pc_openings.specs.Opened.{own_block, Opens};

use crate::announcing::announce_below;
use crate::parameters::declare_parameters;
use pc_names::{BlockId, Names};
use pc_places::{Parameter, Tables};
use pc_syntax::Tree;
use std::alloc::AllocError;

/// Begins a block that stands directly in this one, or in none: its parameters stand before, and all names that it declares somewhere
/// are known. `node` is the block, where there is one. Only memory can fail. Work: in proportion to the declaration parts.
pub fn open_block(
    tables: &mut Tables,
    around: Option<BlockId>,
    parameters: &[Parameter],
    node: Option<&Tree>,
) -> Result<BlockId, AllocError>
    requires around { ForSome around (λ b. b.0 < length tables.old.names.chains) }
    requires named { AreNamed (length tables.old.names.texts) parameters.now }
    requires node { ForSome node (λ t. t.now.kind ≡ kind.Block) }
    ensures { IfOk result (λ b. Opens (chain_around tables.old.names.chains (option_map (λ a. a.0) around)) parameters.now (option_copied node.entry) b.0 tables.old tables.new) }
{
    let block = tables.names.begin(around)?;
    declare_parameters(
        &mut tables.names,
        tables.declarations.as_slice(),
        block,
        parameters,
    )?;
    announce_block(&mut tables.names, block, node)?;
    Ok(block)
}

/// The block declares somewhere all names that a node declares which is a block, if there is one.
fn announce_block(names: &mut Names, block: BlockId, node: Option<&Tree>) -> Result<(), AllocError>
    requires block { block.0 < length names.old.chains }
    requires node { ForSome node (λ t. t.now.kind ≡ kind.Block) }
    ensures { OnOk result (Announced block.0 (declared_in (own_block (option_copied node.entry))) names.old names.new) }
{
    let Some(tree) = node else {
        return Ok(());
    };
    announce_below(names, block, tree)?;
    Ok(())
}
