//! How often the names of types and of variables stood before.

ghost use Rattle.std.specs.Prelude.{◌≡◌, List, map, ℕ, true, IfOk, OnOk};
ghost use Rattle.pc_syntax.specs.Classes.{has};
ghost use Rattle.pc_syntax.specs.Plain.{kids_of};
ghost use Rattle.pc_syntax.specs.declared.class.Class.TheVariants as class;
ghost use Rattle.pc_syntax.specs.declared.kind.Kind.TheVariants as kind;
ghost use Rattle.pc_names.specs.Numbers.{AreDistinct};
ghost use Rattle.pc_rules.specs.Meanings.{Local, Meaning, Outside};
ghost use Rattle.pc_environment.specs.Decorating.{place_behind};
ghost use Rattle.pc_definitions.specs.Numbered.{AtBefore};
ghost use Rattle.pc_places.specs.Parameters.{ShowsParameters};
ghost use Rattle.pc_places.specs.Places.{known, Keeps};

use pc_counts::Counts;
use pc_places::{Parameter, Tables};
use pc_syntax::Tree;
use std::alloc::{AllocError, Global};

/// How often the name of each type and the first name of each variable declaration stood before in their block.
#[derive(Drop)]
pub(crate) struct Before {
    pub(crate) types: Vec<u32>,
    pub(crate) variables: Vec<u32>,
}

/// How often they did in a block with these parameters and these parts. Only memory and numbers can fail.
pub(crate) fn numbers_before(
    alloc: Global,
    tables: &mut Tables,
    parameters: &[Parameter],
    constants: &Tree,
    types: &Tree,
    variables: &Tree,
) -> Result<Before, AllocError>
    requires constants { has class.Consts constants.now.kind ≡ true }
    requires types { has class.Types types.now.kind ≡ true }
    requires variables { has class.Vars variables.now.kind ≡ true }
    ensures types { IfOk result (λ b. (out : Outside) (l : Local) (es : List (List ℕ × Meaning)) → AreDistinct tables.old.names.texts → ShowsParameters (known tables.old) tables.old.declarations.items parameters.now es → l.passed ≡ map (λ d. d.0) es → AtBefore kind.Types kind.Typedef (kids_of types.now) b.types.items tables.old (place_behind out l constants.now)) }
    ensures variables { IfOk result (λ b. (out : Outside) (l : Local) (es : List (List ℕ × Meaning)) → AreDistinct tables.old.names.texts → ShowsParameters (known tables.old) tables.old.declarations.items parameters.now es → l.passed ≡ map (λ d. d.0) es → AtBefore kind.Vars kind.Vardef (kids_of variables.now) b.variables.items tables.old (place_behind out (place_behind out l constants.now) types.now)) }
    ensures keeps { OnOk result (Keeps tables.old tables.new) }
{
    let mut counts = Counts::new(alloc);
    counts.count_parameters(tables, parameters)?;
    counts.count_constants(tables, constants)?;
    let of_types = counts.count_types(alloc, tables, types)?;
    let of_variables = counts.count_variables(alloc, tables, variables)?;
    Ok(Before {
        types: of_types,
        variables: of_variables,
    })
}
