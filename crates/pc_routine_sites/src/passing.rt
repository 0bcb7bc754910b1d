//! What a routine has from a forward one, and leaves for its later declaration.

ghost use Rattle.std.specs.Prelude.{◌≡◌, if◌then◌else◌, IfOk};
ghost use Rattle.pc_routines.specs.Heads.{found_at};
ghost use Rattle.pc_routines.specs.Waits.{waiting_at};
ghost use Rattle.pc_routine_sites.specs.Identities.{waiting_parameters, IsForward};

use crate::keys::copy_key;
use pc_places::Parameter;
use pc_routines::{Forward, RoutineHead, Waiting};
use pc_syntax::Key;
use pc_types::OwnerId;
use std::alloc::{AllocError, Global};

/// The parameters of a routine: its own, and those of the forward routine that it is the later declaration of. Only memory can fail.
pub(crate) fn parameters(
    alloc: Global,
    waiting: &Waiting,
    head: &RoutineHead,
    later: bool,
    own: Vec<Parameter>,
) -> Result<Vec<Parameter>, AllocError>
    ensures { IfOk result (λ ps. ps.items ≡ (if later then waiting_parameters (found_at (waiting_at waiting.now) head.now.name head.now.is_function) else own.items)) }
{
    if later {
        forward_parameters(alloc, waiting, head)
    } else {
        Ok(own)
    }
}

/// The parameters of the forward routine that waits for one with this heading.
fn forward_parameters(
    alloc: Global,
    waiting: &Waiting,
    head: &RoutineHead,
) -> Result<Vec<Parameter>, AllocError>
    ensures { IfOk result (λ ps. ps.items ≡ waiting_parameters (found_at (waiting_at waiting.now) head.now.name head.now.is_function)) }
{
    match waiting.find(head) {
        Some(forward) => {
            let copy = forward.parameters.to_vec(alloc)?;
            Ok(copy)
        }
        None => Ok(Vec::new(alloc)),
    }
}

/// What a forward routine gives to its later declaration; any other one gives nothing. Only memory can fail.
pub(crate) fn given(
    alloc: Global,
    is_forward: bool,
    owner: OwnerId,
    key: &Option<Key>,
    parameters: &[Parameter],
) -> Result<Option<Forward>, AllocError>
    ensures { IfOk result (λ f. IsForward is_forward owner key.now parameters.now f) }
{
    if !is_forward {
        return Ok(None);
    }
    let copy = copy_key(alloc, key)?;
    let all = parameters.to_vec(alloc)?;
    Ok(Some(Forward {
        owner,
        key: copy,
        parameters: all,
    }))
}
