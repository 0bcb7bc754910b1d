//! The later declarations of routines, by the numbers of the routines as owners.

ghost use Rattle.std.specs.Prelude.{◌≡◌, ℕ, ◌≤◌, ◌&&◌, nat_eq, if◌then◌else◌, None, Some, length, get_or, slice_get, IfOk};
ghost use Rattle.std.specs.Option.{option_copied, option_and_then};
ghost use Rattle.std.specs.List.{find};
ghost use Rattle.pc_decl_view.specs.KeptLines.{is_later_of};

use pc_own_names::RoutineNames;
use pc_types::OwnerId;
use std::alloc::{AllocError, Global};

/// At the number of each owner, which of the routines is its later declaration; of more than one the first counts. Work: in
/// proportion to the number of routines and to the largest number of an owner.
pub(crate) fn find_laters(
    alloc: Global,
    routines: &[RoutineNames],
) -> Result<Vec<Option<usize>>, AllocError>
    ensures { IfOk result (λ laters. (n : ℕ) → option_and_then (slice_get routines.now) (get_or laters.items n None) ≡ find (is_later_of n) routines.now) }
{
    let mut laters = Vec::new(alloc);
    let mut left = routines.len();
    while left > 0 {
        left -= 1;
        note_later(&mut laters, &routines[left], left)?;
    }
    Ok(laters)
}

/// The routine at this place of the list counts for its owner, if it is a later declaration.
fn note_later(
    laters: &mut Vec<Option<usize>>,
    routine: &RoutineNames,
    place: usize,
) -> Result<(), AllocError>
    ensures { IfOk result (λ _. (n : ℕ) → get_or laters.new.items n None ≡ (if is_later_of n routine.now then Some place else get_or laters.old.items n None)) }
{
    if routine.is_later {
        put(laters, routine.owner.0, place)?;
    }
    Ok(())
}

/// The place counts for the owner with this number.
fn put(laters: &mut Vec<Option<usize>>, owner: u32, place: usize) -> Result<(), AllocError>
    ensures { IfOk result (λ _. (n : ℕ) → get_or laters.new.items n None ≡ (if nat_eq owner n then Some place else get_or laters.old.items n None)) }
{
    let index = owner as usize;
    grow(laters, index + 1)?;
    laters[index] = Some(place);
    Ok(())
}

/// The table has at least so many numbers.
fn grow(laters: &mut Vec<Option<usize>>, count: usize) -> Result<(), AllocError>
    ensures count { IfOk result (λ _. count ≤ length laters.new.items) }
    ensures same { IfOk result (λ _. (n : ℕ) → get_or laters.new.items n None ≡ get_or laters.old.items n None) }
{
    while laters.len() < count {
        laters.push(None)?;
    }
    Ok(())
}

/// The later declaration of the routine with this number as an owner, if there is one.
pub(crate) fn later_of<'a>(
    laters: &[Option<usize>],
    routines: &'a [RoutineNames],
    owner: OwnerId,
) -> Option<&'a RoutineNames>
    ensures { option_copied result ≡ option_and_then (slice_get routines.now) (get_or laters.now owner.0 None) }
{
    match place_of(laters, owner.0 as usize) {
        Some(place) => routines.get(place),
        None => None,
    }
}

/// What the table has at this number.
fn place_of(laters: &[Option<usize>], owner: usize) -> Option<usize>
    ensures { result ≡ get_or laters.now owner None }
{
    if owner < laters.len() {
        laters[owner]
    } else {
        None
    }
}
