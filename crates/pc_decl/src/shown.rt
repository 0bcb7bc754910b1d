//! Places and keys as they are shown.

ghost use Rattle.std.specs.Prelude.{◌≡◌, ◌++◌, IfOk};
ghost use Rattle.std.specs.List.{flat_map};
ghost use Rattle.pc_types.specs.Rows.{seen_owner};
ghost use Rattle.pc_decl.specs.Shown.{step_text, path_text, part_text, key_text, owner_text};

use pc_syntax::{Key, Word};
use pc_types::Owner;
use std::alloc::{AllocError, Global};

/// Adds the path with these steps, each the number of a kid, from 1: `/` for that of the root.
#[tactic(auto, unfolding(crate::specs::Shown::path_text))]
pub fn push_path(alloc: Global, text: &mut Vec<u8>, place: &[u32]) -> Result<(), AllocError>
    ensures { IfOk result (λ _. text.new.items ≡ text.old.items ++ path_text place.now) }
{
    if place.is_empty() {
        text.push(b'/')?;
        return Ok(());
    }
    push_steps(alloc, text, place)?;
    Ok(())
}

/// Adds the steps, each behind a slash.
fn push_steps(alloc: Global, text: &mut Vec<u8>, steps: &[u32]) -> Result<(), AllocError>
    ensures { IfOk result (λ _. text.new.items ≡ text.old.items ++ flat_map step_text steps.now) }
{
    for step in steps {
        push_step(alloc, text, *step)?;
    }
    Ok(())
}

/// Adds a step behind a slash.
fn push_step(alloc: Global, text: &mut Vec<u8>, step: u32) -> Result<(), AllocError>
    ensures { IfOk result (λ _. text.new.items ≡ text.old.items ++ step_text step) }
{
    text.push(b'/')?;
    let digits = format!(in alloc; "{step}")?;
    text.extend_from_slice(digits.as_bytes())?;
    Ok(())
}

/// Adds a key: `.` for that of the program.
#[tactic(auto, unfolding(crate::specs::Shown::key_text))]
pub fn push_key(text: &mut Vec<u8>, key: &Key) -> Result<(), AllocError>
    ensures { IfOk result (λ _. text.new.items ≡ text.old.items ++ key_text key.now) }
{
    let names = key.names();
    if names.is_empty() {
        text.push(b'.')?;
        return Ok(());
    }
    push_parts(text, names)?;
    Ok(())
}

/// Adds the names, each behind a point.
fn push_parts(text: &mut Vec<u8>, names: &[Word]) -> Result<(), AllocError>
    ensures { IfOk result (λ _. text.new.items ≡ text.old.items ++ flat_map part_text names.now) }
{
    for name in names {
        push_part(text, name.bytes())?;
    }
    Ok(())
}

/// Adds a name behind a point.
fn push_part(text: &mut Vec<u8>, name: &[u8]) -> Result<(), AllocError>
    ensures { IfOk result (λ _. text.new.items ≡ text.old.items ++ part_text name.now) }
{
    text.push(b'.')?;
    text.extend_from_slice(name)?;
    Ok(())
}

/// Adds a routine: by its key, and by its place where it has no key.
pub fn push_owner(alloc: Global, text: &mut Vec<u8>, owner: &Owner) -> Result<(), AllocError>
    ensures { IfOk result (λ _. text.new.items ≡ text.old.items ++ owner_text (seen_owner owner.now)) }
{
    match owner {
        Owner::Keyed(key) => push_key(text, key)?,
        Owner::Placed(place, _) => push_path(alloc, text, place.steps())?,
    }
    Ok(())
}
