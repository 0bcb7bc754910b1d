//! Domains get the types that stand under their names.

ghost use Rattle.std.specs.Prelude.{◌≡◌, ◌<◌, true, false, get_or, length, option_map, IfOk, OnOk};
ghost use Rattle.std.specs.Option.{option_and_then};
ghost use Rattle.pc_types.specs.Table.{numbered, nobody, place_at};
ghost use Rattle.pc_types.specs.Rows.{seen, TargetThere};
ghost use Rattle.pc_places.specs.Places.{known};
ghost use Rattle.pc_domains.specs.Told.{type_at};
ghost use Rattle.pc_domains.specs.Rows.{StandsAt, TellsRow, TellsRows};

use crate::by_name::TypesByName;
use crate::owners::ClosedOwners;
use pc_places::Tables;
use pc_types::{DomainId, OwnerId, TypeId, Types};
use std::alloc::AllocError;

/// The domains from this number on have the types that stand under their names. Fails where there are as many domains as numbers, and
/// where the types of a domain's owner are not closed.
pub(crate) fn tell_rows(
    tables: &mut Tables,
    closed: &ClosedOwners,
    types: &TypesByName,
    from: usize,
) -> Result<(), AllocError>
    ensures { OnOk result (TellsRows closed.now types.now from (length (known tables.old).table.domains) tables.old tables.new) }
{
    let count = tables.types.count_domains();
    for i in from..count {
        let id = domain_id(i)?;
        tell_row(tables, closed, types, id)?;
    }
    Ok(())
}

/// The number of a domain as one of 32 bits, or no memory where there is none.
fn domain_id(i: usize) -> Result<DomainId, AllocError>
    ensures { IfOk result (λ x. x.0 ≡ i) }
{
    match u32::try_from(i) {
        Ok(number) => Ok(DomainId(number)),
        Err(_) => Err(AllocError),
    }
}

/// The domain with this number has the type that stands under its name.
fn tell_row(
    tables: &mut Tables,
    closed: &ClosedOwners,
    types: &TypesByName,
    id: DomainId,
) -> Result<(), AllocError>
    requires { id.0 < length (known tables.old).table.domains }
    ensures { OnOk result (TellsRow closed.now types.now id tables.old tables.new) }
{
    let of = standing(tables, closed, types, id)?;
    tables.types.set_domain(id, of);
    Ok(())
}

/// The type that stands under the name of a domain.
fn standing(
    tables: &Tables,
    closed: &ClosedOwners,
    types: &TypesByName,
    id: DomainId,
) -> Result<Option<TypeId>, AllocError>
    ensures stands { IfOk result (λ of. StandsAt closed.now types.now tables.now id (option_map (numbered (known tables.now).table.shapes) of)) }
    ensures there { IfOk result (λ of. TargetThere (length (known tables.now).table.shapes) (option_map (λ i. i.0) of)) }
{
    let owner = closed_owner(&tables.types, closed, id)?;
    let name = tables.names.number_of(tables.types.domain_name(id));
    let of = type_under(types, owner, name)?;
    checked(&tables.types, of)
}

/// The owner of a domain, whose types are closed.
fn closed_owner(types: &Types, closed: &ClosedOwners, id: DomainId) -> Result<OwnerId, AllocError>
    ensures closed { IfOk result (λ o. get_or closed.now o.0 false ≡ true) }
    ensures owner { IfOk result (λ o. (place_at (seen types.now) id).owner ≡ get_or (seen types.now).owners o.0 nobody) }
{
    match types.domain_owner(id) {
        Some(owner) => {
            if closed.has(owner) {
                Ok(owner)
            } else {
                Err(AllocError)
            }
        }
        None => Err(AllocError),
    }
}

/// The type that stands under an owner and the number of a name, if the name has one.
fn type_under(
    types: &TypesByName,
    owner: OwnerId,
    name: Option<usize>,
) -> Result<Option<TypeId>, AllocError>
    ensures { IfOk result (λ of. of ≡ option_and_then (λ i. type_at types.now owner.0 i) name) }
{
    match name {
        Some(i) => match u32::try_from(i) {
            Ok(number) => Ok(types.at(owner, number)),
            Err(_) => Err(AllocError),
        },
        None => Ok(None),
    }
}

/// The same type, if there is a type with its number.
fn checked(types: &Types, of: Option<TypeId>) -> Result<Option<TypeId>, AllocError>
    ensures same { IfOk result (λ x. x ≡ of) }
    ensures there { IfOk result (λ x. TargetThere (length (seen types.now).shapes) (option_map (λ i. i.0) x)) }
{
    match of {
        Some(id) => {
            if (id.0 as usize) < types.count() {
                Ok(of)
            } else {
                Err(AllocError)
            }
        }
        None => Ok(None),
    }
}
