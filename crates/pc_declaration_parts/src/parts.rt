//! The declaration parts of a block (ISO 7185, 6.2.1).

ghost use Rattle.std.specs.Prelude.{◌≡◌, ◌<◌, ℕ, List, map, true, length, IfOk, OnOk};
ghost use Rattle.pc_syntax.specs.Classes.{has};
ghost use Rattle.pc_syntax.specs.declared.class.Class.TheVariants as class;
ghost use Rattle.pc_types.specs.Rows.{seen};
ghost use Rattle.pc_rules.specs.Meanings.{Local, Meaning, Outside};
ghost use Rattle.pc_environment.specs.Decorating.{place_behind};
ghost use Rattle.pc_sightings.specs.TouchedLog.{AreApart};
ghost use Rattle.pc_pointers.specs.Good.{Targets};
ghost use Rattle.pc_places.specs.Parameters.{ShowsParameters};
ghost use Rattle.pc_places.specs.Places.{known, Changes, IsPlace};
ghost use Rattle.pc_domains.specs.Told.{IsTold};
ghost use Rattle.pc_declaration_parts.specs.Blocks.{BlockFacts, ShowsParts};

use crate::numbers::numbers_before;
use crate::variables::variable_declarations;
use pc_definitions::{constant_definitions, type_definitions};
use pc_domains::Domains;
use pc_facts::Facts;
use pc_names::BlockId;
use pc_places::{Parameter, Tables};
use pc_syntax::Tree;
use pc_targets::blocks_see_the_same;
use pc_types::OwnerId;
use std::alloc::{AllocError, Global};

/// What is found at the constants, the types and the variables of a block.
#[derive(Drop)]
pub struct Parts {
    pub constants: Facts,
    pub types: Facts,
    pub variables: Facts,
}

/// What is found at the constants, the types and the variables of a block, which this routine owns and which has these parameters. Its
/// types are closed behind their part, and those of its variables are known behind their denoters. Fails for want of memory and of
/// numbers, and where `Domains::close` does.
pub fn declaration_parts(
    alloc: Global,
    tables: &mut Tables,
    domains: &mut Domains,
    block: BlockId,
    owner: OwnerId,
    is_program: bool,
    parameters: &[Parameter],
    constants: &Tree,
    types: &Tree,
    variables: &Tree,
) -> Result<Parts, AllocError>
    requires block { block.0 < length tables.old.names.chains }
    requires owner { owner.0 < length (seen tables.old.types).owners }
    requires constants { has class.Consts constants.now.kind ≡ true }
    requires types { has class.Types types.now.kind ≡ true }
    requires variables { has class.Vars variables.now.kind ≡ true }
    ensures parts { IfOk result (λ p. (targets : Targets) (out : Outside) (l : Local) (es : List (List ℕ × Meaning)) → BlockFacts targets is_program out l constants.now types.now → IsPlace tables.old block.0 owner.0 out l → ShowsParameters (known tables.old) tables.old.declarations.items parameters.now es → l.passed ≡ map (λ d. d.0) es → AreApart (known tables.old).table.owners → IsTold targets domains.old (known tables.old) → (is_program ≡ true → owner.0 ≡ 0) → ShowsParts (known tables.new) p out l constants.now types.now variables.now × IsPlace tables.new block.0 owner.0 out (place_behind out (place_behind out (place_behind out l constants.now) types.now) variables.now) × IsTold targets domains.new (known tables.new)) }
    ensures changes { OnOk result (Changes block.0 tables.old tables.new) }
{
    blocks_see_the_same();
    tables.types.stays_in_order();
    let before = numbers_before(alloc, tables, parameters, constants, types, variables)?;
    let of_constants = constant_definitions(alloc, tables, block, owner, constants)?;
    let of_types = type_definitions(alloc, tables, block, owner, before.types.as_slice(), types)?;
    domains.close(alloc, tables, block, owner, is_program, types)?;
    let of_variables = variable_declarations(
        alloc,
        tables,
        domains,
        block,
        owner,
        before.variables.as_slice(),
        variables,
    )?;
    Ok(Parts {
        constants: of_constants,
        types: of_types,
        variables: of_variables,
    })
}
