//! Variables get their type.

ghost use Rattle.std.specs.Prelude.{◌≡◌, ◌<◌, None, length, OnOk};
ghost use Rattle.pc_definitions.specs.VariableNames.{AreNumbers};
ghost use Rattle.pc_definitions.specs.Variables.{TellsVariables};

use pc_facts::Declared;
use pc_names::{BlockId, NameClass, NameId};
use pc_places::{Tables, retell};
use pc_types::{Operand, OwnerId};
use std::alloc::AllocError;

/// The variables with these names have this type from now on, or none. Fails for want of memory, and where there are as many declarations
/// as numbers.
pub(crate) fn tell_variables(
    tables: &mut Tables,
    block: BlockId,
    owner: OwnerId,
    of: Option<Operand>,
    names: &[NameId],
) -> Result<(), AllocError>
    requires block { block.0 < length tables.old.names.chains }
    requires names { AreNumbers (length tables.old.names.texts) names.now }
    ensures { OnOk result (TellsVariables block.0 owner of names.now tables.old tables.new) }
{
    for name in names {
        let declared = variable(owner, *name, of);
        retell(tables, block, *name, declared)?;
    }
    Ok(())
}

/// The declaration of a variable.
fn variable(owner: OwnerId, name: NameId, of: Option<Operand>) -> Declared
    ensures { result ≡ record { class = NameClass.Variable; owner = owner; name = name; value = None; of = of; signature = None } }
{
    Declared {
        class: NameClass::Variable,
        owner,
        name,
        value: None,
        of,
        signature: None,
    }
}
