//! Definitions of types inside others.

ghost use Rattle.std.specs.Prelude.{◌≡◌, ◌+◌, List, IfOk};
ghost use Rattle.pc_types.specs.Shapes.{Owner};
ghost use Rattle.pc_types.specs.Table.{definition_in};
ghost use Rattle.pc_denoters.specs.Insides.{inside_of};

use pc_types::Definition;
use std::alloc::{AllocError, Global};

/// The definition at kid `i`, from 1, of the denoter that is defined here. Only memory can fail.
pub(crate) fn inside(alloc: Global, here: &Definition, i: u32) -> Result<Definition, AllocError>
    ensures definition { IfOk result (λ d. (owners : List Owner) → definition_in owners d ≡ inside_of (definition_in owners here.now) i) }
    ensures owner { IfOk result (λ d. d.owner ≡ here.now.owner) }
{
    let name = here.name.copy(alloc)?;
    let inside = here.inside.child(alloc, i)?;
    Ok(Definition {
        owner: here.owner,
        name,
        number: here.number,
        inside,
    })
}

/// The next number, if there is one.
pub(crate) fn next(i: u32) -> Result<u32, AllocError>
    ensures { IfOk result (λ n. n ≡ i + 1) }
{
    match i.checked_add(1) {
        Some(n) => Ok(n),
        None => Err(AllocError),
    }
}
