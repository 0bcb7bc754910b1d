//! The search for new types that are not whole.

ghost use Rattle.std.specs.Prelude.{◌≡◌, ◌+◌, ◌++◌, length, IfOk, OnOk};
ghost use Rattle.pc_types.specs.Rows.{seen};
ghost use Rattle.pc_closing.specs.Whole.{AreFound, AreWhole};
ghost use Rattle.pc_closing.specs.Search.{AreCounted};
ghost use Rattle.pc_closing.specs.Searched.{Changes, Gathers, Spreads};

use crate::marks::Marks;
use crate::needs::note;
use crate::numbers::u32_of;
use crate::users::{Users, no_users, users_of};
use pc_types::Types;
use std::alloc::{AllocError, Global};

/// Which of the types behind those with flags are whole, `count` in all. Only memory can fail. Work: in the number of these types and of
/// their fields.
pub(crate) fn search(
    alloc: Global,
    flags: &[bool],
    types: &Types,
    count: usize,
) -> Result<Vec<bool>, AllocError>
    requires count { length flags.now + count ≡ length (seen types.now).shapes }
    ensures right { IfOk result (λ more. AreWhole (seen types.now) flags.now → AreFound (seen types.now) → AreWhole (seen types.now) (flags.now ++ more.items)) }
    ensures count { IfOk result (λ more. length more.items ≡ count) }
{
    let mut users = no_users(alloc, count)?;
    let mut marks = Marks::new(alloc, count)?;
    gather(flags, types, &mut users, &mut marks)?;
    spread(&users, &mut marks)?;
    Ok(marks.into_flags())
}

/// Notes what each new type leads to.
fn gather(
    flags: &[bool],
    types: &Types,
    users: &mut [Users],
    marks: &mut Marks,
) -> Result<(), AllocError>
    requires count { length flags.now + length users.old ≡ length (seen types.now).shapes }
    ensures changes { OnOk result (Changes users.old users.new marks.old marks.new) }
    ensures gathered { OnOk result (AreWhole (seen types.now) flags.now → AreFound (seen types.now) → Gathers flags.now (seen types.now) users.old users.new marks.old marks.new (length users.old)) }
{
    let count = u32_of(users.len())?;
    for id in 0..count {
        note(flags, types, users, marks, id)?;
    }
    Ok(())
}

/// Finds all that leads to a type that was found.
fn spread(users: &[Users], marks: &mut Marks) -> Result<(), AllocError>
    requires { AreCounted marks.old }
    ensures { OnOk result (Spreads users.now marks.old marks.new (length marks.new.found)) }
{
    let mut at = 0;
    while let Some(part) = marks.found(at) {
        marks.enter_all(users_of(users, part as usize))?;
        at += 1;
    }
    Ok(())
}
