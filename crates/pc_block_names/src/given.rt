//! The parameters that a later declaration has from its forward heading (ISO 7185, 6.6.1, 6.6.2).

ghost use Rattle.std.specs.Prelude.{◌≡◌, ℕ, List, length, true, IfOk};
ghost use Rattle.pc_syntax.specs.Plain.{Plain};
ghost use Rattle.pc_syntax.specs.WellFormed.{IsProper};
ghost use Rattle.pc_rules.specs.Errors.{is_program};
ghost use Rattle.pc_rules.specs.RoutineList.{routines_of};
ghost use Rattle.pc_rules.specs.Routines.{Routine};
ghost use Rattle.pc_needs.specs.Unaffected.{IsOneOf};
ghost use Rattle.pc_decl.specs.Declared as listed;
ghost use Rattle.pc_places.specs.Parameters.{AreNamed};
ghost use Rattle.pc_routine_sites.specs.Sites.{StandsAround};
ghost use Rattle.pc_own_names.specs.OwnKinds.{HasSame};
ghost use Rattle.pc_block_names.specs.Given.{small_names};

use pc_names::Names;
use pc_places::{Parameter, Tables};
use pc_routine_sites::RoutineSite;
use std::alloc::{AllocError, Global};

/// The names of the parameters that a later declaration has from its forward heading; none where it isn't one. Only memory can fail. Work:
/// the lengths of the names, and one look-up in a hash table for each.
pub fn given_names(alloc: Global, tables: &Tables, site: &RoutineSite) -> Result<Names, AllocError>
    requires { AreNamed (length tables.now.names.texts) site.now.parameters.items }
    ensures { IfOk result (λ names. (t : Plain) (r : Routine) (blocks : List ℕ) → IsProper t → is_program t.kind ≡ true → IsOneOf (routines_of t) r → StandsAround (routines_of t) r tables.now blocks site.now → HasSame names.texts (listed.given_names r)) }
{
    if site.is_later {
        let names = parameter_names(alloc, &tables.names, site.parameters.as_slice())?;
        Ok(names)
    } else {
        Ok(Names::new(alloc))
    }
}

/// The names of some parameters in small letters, whose numbers are those of the table.
fn parameter_names(
    alloc: Global,
    names: &Names,
    parameters: &[Parameter],
) -> Result<Names, AllocError>
    requires { AreNamed (length names.now.texts) parameters.now }
    ensures { IfOk result (λ given. HasSame given.texts (small_names names.now.texts parameters.now)) }
{
    let mut given = Names::new(alloc);
    for parameter in parameters {
        given.number(names.name(parameter.name))?;
    }
    Ok(given)
}
