//! What a block has declared under a name.

ghost use Rattle.std.specs.Prelude.{◌≡◌, option_map, IfOk};
ghost use Rattle.pc_types.specs.declared.operand.Operand.TheVariants as operand;
ghost use Rattle.pc_domains.specs.Types as types;

use pc_facts::Declared;
use pc_names::{BlockId, NameClass, NameId};
use pc_places::Tables;
use pc_types::{Operand, TypeId};
use std::alloc::AllocError;

/// The complete declaration that a block has of a name, if it has one.
pub(crate) fn declaration_at(tables: &Tables, block: BlockId, name: NameId) -> Option<Declared>
    ensures { result ≡ types.declaration_at tables.now block.0 name.0 }
{
    match tables.names.slot(block, name).known {
        Some(id) => tables.declarations.get(id.0 as usize).copied(),
        None => None,
    }
}

/// The type of a declaration, if it is that of a type and has one.
pub(crate) fn declared_type(declared: Option<Declared>) -> Option<Operand>
    ensures { result ≡ types.declared_type declared }
{
    match declared {
        Some(known) => match known.class {
            NameClass::Type => known.of,
            _ => None,
        },
        None => None,
    }
}

/// The number of a type; a type that has none counts as no memory.
pub(crate) fn type_id(of: Option<Operand>) -> Result<Option<TypeId>, AllocError>
    ensures { IfOk result (λ t. of ≡ option_map operand.Id t) }
{
    match of {
        Some(Operand::Id(id)) => Ok(Some(id)),
        Some(_) => Err(AllocError),
        None => Ok(None),
    }
}
