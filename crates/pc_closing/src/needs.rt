//! What a new type leads to.

ghost use Rattle.std.specs.Prelude.{◌≡◌, ◌+◌, ◌<◌, length, OnOk};
ghost use Rattle.pc_types.specs.Rows.{seen};
ghost use Rattle.pc_types.specs.Table.{numbered};
ghost use Rattle.pc_closing.specs.Whole.{AreFound, AreWhole};
ghost use Rattle.pc_closing.specs.Search.{marks_needing, users_needing, marks_if, users_if, marks_all, users_all, marks_to, users_to};
ghost use Rattle.pc_closing.specs.Searched.{Changes, IsNoted, IsTarget, TargetThere};

use crate::marks::Marks;
use crate::numbers::u32_of;
use crate::users::{Users, add_user};
use pc_syntax::Word;
use pc_types::{Operand, TypeId, Types};
use std::alloc::AllocError;

/// A new type leads to this one. Only memory can fail.
fn need(
    flags: &[bool],
    users: &mut [Users],
    marks: &mut Marks,
    part: TypeId,
    id: u32,
) -> Result<(), AllocError>
    ensures marks { OnOk result (marks.new ≡ marks_needing flags.now part.0 id marks.old) }
    ensures users { OnOk result (users.new ≡ users_needing flags.now part.0 id users.old) }
{
    let at = part.0 as usize;
    match flags.get(at).copied() {
        Some(true) => Ok(()),
        Some(false) => {
            marks.enter(id)?;
            Ok(())
        }
        None => {
            add_user(users, at - flags.len(), id)?;
            Ok(())
        }
    }
}

/// A new type leads to this one, if there is one.
fn need_if(
    flags: &[bool],
    users: &mut [Users],
    marks: &mut Marks,
    part: Option<TypeId>,
    id: u32,
) -> Result<(), AllocError>
    ensures marks { OnOk result (marks.new ≡ marks_if flags.now part id marks.old) }
    ensures users { OnOk result (users.new ≡ users_if flags.now part id users.old) }
{
    match part {
        Some(known) => {
            need(flags, users, marks, known, id)?;
            Ok(())
        }
        None => Ok(()),
    }
}

/// A new type leads to the types of these fields.
fn need_all(
    flags: &[bool],
    users: &mut [Users],
    marks: &mut Marks,
    fields: &[(Word, TypeId)],
    id: u32,
) -> Result<(), AllocError>
    ensures marks { OnOk result (marks.new ≡ marks_all flags.now fields.now id marks.old) }
    ensures users { OnOk result (users.new ≡ users_all flags.now fields.now id users.old) }
{
    let mut rest = fields;
    while let [field, tail @ ..] = rest {
        need(flags, users, marks, field.1, id)?;
        rest = tail;
    }
    Ok(())
}

/// A new type is no pointer type, or its domain has this type or none.
fn need_to(
    flags: &[bool],
    users: &mut [Users],
    marks: &mut Marks,
    target: Option<Option<TypeId>>,
    id: u32,
) -> Result<(), AllocError>
    ensures marks { OnOk result (marks.new ≡ marks_to flags.now target id marks.old) }
    ensures users { OnOk result (users.new ≡ users_to flags.now target id users.old) }
{
    match target {
        Some(Some(part)) => {
            need(flags, users, marks, part, id)?;
            Ok(())
        }
        Some(None) => {
            marks.enter(id)?;
            Ok(())
        }
        None => Ok(()),
    }
}

/// The type of the domain, if it is a pointer type.
fn target(types: &Types, of: TypeId) -> Option<Option<TypeId>>
    ensures target { AreFound (seen types.now) → IsTarget (seen types.now) (numbered (seen types.now).shapes of) result }
    ensures there { TargetThere (length (seen types.now).shapes) result }
{
    match types.pointed(Operand::Id(of)) {
        Some(domain) => Some(types.domain(domain)),
        None => None,
    }
}

/// Notes what a new type leads to: it is not whole, or it is among those that lead to each new type that it leads to; given that the
/// flags are right, and that the table has at the place of each domain that domain's type. Only memory can fail.
pub(crate) fn note(
    flags: &[bool],
    types: &Types,
    users: &mut [Users],
    marks: &mut Marks,
    id: u32,
) -> Result<(), AllocError>
    requires count { length flags.now + length users.old ≡ length (seen types.now).shapes }
    requires new { id < length users.old }
    ensures changes { OnOk result (Changes users.old users.new marks.old marks.new) }
    ensures noted { OnOk result (AreWhole (seen types.now) flags.now → AreFound (seen types.now) → IsNoted flags.now (seen types.now) id users.old users.new marks.old marks.new) }
{
    let of = TypeId(u32_of(flags.len() + id as usize)?);
    need_if(flags, users, marks, types.element(Operand::Id(of)), id)?;
    need_all(flags, users, marks, types.fields(Operand::Id(of)), id)?;
    need_to(flags, users, marks, target(types, of), id)?;
    Ok(())
}
