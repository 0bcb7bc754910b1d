//! A routine as an owner.

ghost use Rattle.std.specs.Prelude.{◌≡◌, ◌<◌, length, option_copied, unwrap_or, IfOk};
ghost use Rattle.std.specs.Option.{ForSome};
ghost use Rattle.pc_types.specs.Rows.{seen};
ghost use Rattle.pc_rules.specs.RoutineList.{owner_of};
ghost use Rattle.pc_routines.specs.Heads.{found_at};
ghost use Rattle.pc_routines.specs.Waits.{waiting_at};
ghost use Rattle.pc_routine_sites.specs.Identities.{own_key, taken_owner, IsOwner};

use crate::keys::{near_key, own_key};
use crate::numbering::{forward_owner, owner_number};
use pc_names::Names;
use pc_routines::{RoutineHead, Waiting};
use pc_syntax::{Key, Path};
use pc_types::{OwnerId, Types};
use std::alloc::{AllocError, Global};

/// A routine as an owner: its number; its key, if it has one; the nearest key, its own or one around; and its place.
#[derive(Drop)]
pub(crate) struct Identity {
    pub owner: OwnerId,
    pub key: Option<Key>,
    pub near: Key,
    pub place: Path,
}

/// The routine with this heading and at this place, as an owner, given the key of the routine around and the nearest key around. Only memory
/// and numbers can fail.
pub(crate) fn identify(
    alloc: Global,
    types: &mut Types,
    names: &Names,
    waiting: &Waiting,
    key: Option<&Key>,
    near: &Key,
    place: Path,
    head: &RoutineHead,
    later: bool,
    first: bool,
) -> Result<Identity, AllocError>
    requires { ForSome head.now.name (λ i. i.0 < length names.now.texts) }
    ensures key { IfOk result (λ i. i.key ≡ own_key names.now.texts waiting.now (option_copied key.entry) head.now later first) }
    ensures near { IfOk result (λ i. i.near ≡ unwrap_or i.key near.now) }
    ensures place { IfOk result (λ i. i.place ≡ place) }
    ensures owner { IfOk result (λ i. IsOwner (taken_owner later (length (seen types.old).owners) (found_at (waiting_at waiting.now) head.now.name head.now.is_function)) (owner_of i.key place) (seen types.old) (seen types.new) i.owner) }
    ensures there { IfOk result (λ i. i.owner.0 < length (seen types.new).owners) }
{
    let own = own_key(alloc, names, waiting, key, head, later, first)?;
    let nearest = near_key(alloc, &own, near)?;
    let taken = forward_owner(types, waiting, head, later);
    let owner = owner_number(alloc, types, taken, &own, &nearest, &place)?;
    Ok(Identity {
        owner,
        key: own,
        near: nearest,
        place,
    })
}
