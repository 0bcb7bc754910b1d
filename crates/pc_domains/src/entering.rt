//! The types of a block are entered under their names.

ghost use Rattle.std.specs.Prelude.{◌≡◌, IfOk, OnOk};
ghost use Rattle.pc_types.specs.Rows.{seen};
ghost use Rattle.pc_domains.specs.Types.{IsDeclaredType, IsRequired, Says, Enters};

use crate::by_name::TypesByName;
use crate::declared::{declaration_at, declared_type, type_id};
use crate::naming::RequiredNames;
use pc_names::{BlockId, NameId};
use pc_places::Tables;
use pc_types::{OwnerId, TypeId, Types};
use std::alloc::AllocError;

/// Under each of these names of a block stands its type: the block's own, if it declares the name, and else the required one, if it has
/// these. Fails for want of memory; a type that has no number counts as no memory.
pub(crate) fn enter_types(
    tables: &Tables,
    types: &mut TypesByName,
    block: BlockId,
    owner: OwnerId,
    required: Option<RequiredNames>,
    ids: &[NameId],
) -> Result<(), AllocError>
    ensures { OnOk result (Enters tables.now block.0 owner.0 required ids.now types.old types.new) }
{
    for id in ids {
        let of = type_of_name(tables, block, required, *id)?;
        types.put(owner, *id, of)?;
    }
    Ok(())
}

/// The type of a name of a block.
fn type_of_name(
    tables: &Tables,
    block: BlockId,
    required: Option<RequiredNames>,
    name: NameId,
) -> Result<Option<TypeId>, AllocError>
    ensures { IfOk result (λ x. Says tables.now block.0 required name.0 x) }
{
    match tables.names.slot(block, name).class {
        Some(_) => own_type(tables, block, name),
        None => required_type(&tables.types, required, name),
    }
}

/// The type that the block declares under the name.
fn own_type(tables: &Tables, block: BlockId, name: NameId) -> Result<Option<TypeId>, AllocError>
    ensures { IfOk result (λ x. IsDeclaredType tables.now block.0 name.0 x) }
{
    let of = declared_type(declaration_at(tables, block, name));
    type_id(of)
}

/// The required type of this name.
fn required_type(
    types: &Types,
    required: Option<RequiredNames>,
    name: NameId,
) -> Result<Option<TypeId>, AllocError>
    ensures { IfOk result (λ x. IsRequired (seen types.now) required name.0 x) }
{
    let Some(names) = required else {
        return Ok(None);
    };
    if names.integer.0 == name.0 {
        return type_id(Some(types.integer()));
    }
    if names.boolean.0 == name.0 {
        return type_id(Some(types.boolean()));
    }
    if names.char_type.0 == name.0 {
        return type_id(Some(types.char_type()));
    }
    Ok(None)
}
