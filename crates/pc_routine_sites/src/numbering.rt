//! Numbers of routines as owners.

ghost use Rattle.std.specs.Prelude.{◌≡◌, ◌<◌, length, IfOk, OnOk};
ghost use Rattle.std.specs.Option.{ForSome};
ghost use Rattle.pc_types.specs.Growth.{AddsOwner};
ghost use Rattle.pc_types.specs.Rows.{seen, seen_owner};
ghost use Rattle.pc_rules.specs.RoutineList.{owner_of};
ghost use Rattle.pc_routines.specs.Heads.{found_at};
ghost use Rattle.pc_routines.specs.Waits.{waiting_at};
ghost use Rattle.pc_routine_sites.specs.Identities.{taken_at, taken_owner, IsOwner};

use pc_routines::{RoutineHead, Waiting};
use pc_syntax::{Key, Path};
use pc_types::{Owner, OwnerId, Types};
use std::alloc::{AllocError, Global};

/// The number of the routine with this key, or at this place, which is taken or else new. Only memory and numbers can fail.
pub(crate) fn owner_number(
    alloc: Global,
    types: &mut Types,
    taken: Option<OwnerId>,
    key: &Option<Key>,
    near: &Key,
    place: &Path,
) -> Result<OwnerId, AllocError>
    requires { ForSome taken (λ i. i.0 < length (seen types.old).owners) }
    ensures owner { IfOk result (λ i. IsOwner taken (owner_of key.now place.now) (seen types.old) (seen types.new) i) }
    ensures there { IfOk result (λ i. i.0 < length (seen types.new).owners) }
{
    match taken {
        Some(id) => Ok(id),
        None => {
            let owner = owner_at(alloc, key, near, place)?;
            let id = add_owner(types, owner)?;
            Ok(id)
        }
    }
}

/// The number of the forward routine that waits for a later declaration with this heading, if it has a key.
pub(crate) fn forward_owner(
    types: &Types,
    waiting: &Waiting,
    head: &RoutineHead,
    later: bool,
) -> Option<OwnerId>
    ensures taken { result ≡ taken_owner later (length (seen types.now).owners) (found_at (waiting_at waiting.now) head.now.name head.now.is_function) }
    ensures there { ForSome result (λ i. i.0 < length (seen types.now).owners) }
{
    if !later {
        return None;
    }
    let forward = waiting.find(head)?;
    if forward.key.is_none() {
        return None;
    }
    there(types, forward.owner)
}

/// The number, if it is one of an owner.
fn there(types: &Types, owner: OwnerId) -> Option<OwnerId>
    ensures { result ≡ taken_at (length (seen types.now).owners) owner }
{
    if (owner.0 as usize) < types.count_owners() {
        Some(owner)
    } else {
        None
    }
}

/// The routine with this key, or at this place if it has none.
fn owner_at(alloc: Global, key: &Option<Key>, near: &Key, place: &Path) -> Result<Owner, AllocError>
    ensures { IfOk result (λ o. seen_owner o ≡ owner_of key.now place.now) }
{
    match key {
        Some(own) => {
            let copy = own.copy(alloc)?;
            Ok(Owner::Keyed(copy))
        }
        None => {
            let at = place.copy(alloc)?;
            let around = near.copy(alloc)?;
            Ok(Owner::Placed(at, around))
        }
    }
}

/// A new owner: its number.
fn add_owner(types: &mut Types, owner: Owner) -> Result<OwnerId, AllocError>
    ensures number { IfOk result (λ i. i.0 ≡ length (seen types.old).owners) }
    ensures added { OnOk result (AddsOwner (seen types.old) (seen types.new) (seen_owner owner)) }
{
    match u32::try_from(types.count_owners()) {
        Ok(_) => {
            let id = types.add_owner(owner)?;
            Ok(id)
        }
        Err(_) => Err(AllocError),
    }
}
