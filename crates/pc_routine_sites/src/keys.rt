//! Keys of routines.

ghost use Rattle.std.specs.Prelude.{◌≡◌, ◌<◌, length, option_copied, unwrap_or, if◌then◌else◌, None, IfOk};
ghost use Rattle.std.specs.Option.{ForSome};
ghost use Rattle.pc_routines.specs.Heads.{found_at};
ghost use Rattle.pc_routines.specs.Waits.{waiting_at};
ghost use Rattle.pc_routine_sites.specs.Identities.{waiting_key, child_key, own_key};

use pc_names::{NameId, Names};
use pc_routines::{RoutineHead, Waiting};
use pc_syntax::Key;
use std::alloc::{AllocError, Global};

/// The key of a routine, if it has one: that of the forward routine that it is the later declaration of, and if it is the first of its name
/// that of the routine around with its name. Only memory can fail.
pub(crate) fn own_key(
    alloc: Global,
    names: &Names,
    waiting: &Waiting,
    around: Option<&Key>,
    head: &RoutineHead,
    later: bool,
    first: bool,
) -> Result<Option<Key>, AllocError>
    requires { ForSome head.now.name (λ i. i.0 < length names.now.texts) }
    ensures { IfOk result (λ k. k ≡ own_key names.now.texts waiting.now (option_copied around.entry) head.now later first) }
{
    if later {
        forward_key(alloc, waiting, head)
    } else {
        first_key(alloc, names, around, head.name, first)
    }
}

/// The key of the forward routine that waits for one with this heading, if there is one and it has a key.
fn forward_key(
    alloc: Global,
    waiting: &Waiting,
    head: &RoutineHead,
) -> Result<Option<Key>, AllocError>
    ensures { IfOk result (λ k. k ≡ waiting_key (found_at (waiting_at waiting.now) head.now.name head.now.is_function)) }
{
    match waiting.find(head) {
        Some(forward) => copy_key(alloc, &forward.key),
        None => Ok(None),
    }
}

/// The key of a routine with this name in the one with this key, if there are both and it is the first.
fn first_key(
    alloc: Global,
    names: &Names,
    around: Option<&Key>,
    name: Option<NameId>,
    first: bool,
) -> Result<Option<Key>, AllocError>
    requires { ForSome name (λ i. i.0 < length names.now.texts) }
    ensures { IfOk result (λ k. k ≡ (if first then child_key names.now.texts (option_copied around.entry) name else None)) }
{
    if first {
        named_key(alloc, names, around, name)
    } else {
        Ok(None)
    }
}

/// The key of a routine with this name in the one with this key, if there are both.
fn named_key(
    alloc: Global,
    names: &Names,
    around: Option<&Key>,
    name: Option<NameId>,
) -> Result<Option<Key>, AllocError>
    requires { ForSome name (λ i. i.0 < length names.now.texts) }
    ensures { IfOk result (λ k. k ≡ child_key names.now.texts (option_copied around.entry) name) }
{
    let Some(key) = around else {
        return Ok(None);
    };
    let Some(id) = name else {
        return Ok(None);
    };
    let child = key.child(alloc, names.name(id))?;
    Ok(Some(child))
}

/// The same key once more, if there is one.
pub(crate) fn copy_key(alloc: Global, key: &Option<Key>) -> Result<Option<Key>, AllocError>
    ensures { IfOk result (λ k. k ≡ key.now) }
{
    match key {
        Some(own) => {
            let copy = own.copy(alloc)?;
            Ok(Some(copy))
        }
        None => Ok(None),
    }
}

/// The key of the nearest routine that has one: its own, or the nearest around.
pub(crate) fn near_key(alloc: Global, key: &Option<Key>, near: &Key) -> Result<Key, AllocError>
    ensures { IfOk result (λ k. k ≡ unwrap_or key.now near.now) }
{
    match key {
        Some(own) => own.copy(alloc),
        None => near.copy(alloc),
    }
}
