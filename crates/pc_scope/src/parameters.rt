//! Parameters of routines.

ghost use Rattle.std.specs.Prelude.{◌≡◌, IfOk};
ghost use Rattle.pc_syntax.specs.Plain.{forest_of};
ghost use Rattle.pc_scope.specs.Entries.{all_declared};
ghost use Rattle.pc_scope.specs.Waiting as waiting;

use crate::headings::is_parameters;
use crate::named::Named;
use crate::naming::add_below;
use pc_syntax::{Path, Tree};
use std::alloc::{AllocError, Global};

/// The parameters that a routine at a place declares by its own heading.
fn parameters_of(alloc: Global, routine: &Tree, at: &Path) -> Result<Vec<Named>, AllocError>
    ensures { IfOk result (λ parameters. all_declared parameters.items ≡ waiting.parameters_of at.now routine.now.kids) }
{
    let mut parameters = Vec::new(alloc);
    let Some(list) = routine.kid(2) else {
        return Ok(parameters);
    };
    if !is_parameters(list.kind()) {
        return Ok(parameters);
    }
    let place = at.child(alloc, 2)?;
    add_below(alloc, list, &place, &mut parameters)?;
    Ok(parameters)
}

/// The parameters of a routine, by its number from 1 among those whose list is at a place.
pub fn parameters_at(
    alloc: Global,
    at: &Path,
    number: u32,
    routines: &[Tree],
) -> Result<Vec<Named>, AllocError>
    ensures { IfOk result (λ parameters. all_declared parameters.items ≡ waiting.parameters_at at.now number (forest_of routines.now)) }
{
    let Some(i) = number.checked_sub(1) else {
        return Ok(Vec::new(alloc));
    };
    let Some(routine) = routines.get(i as usize) else {
        return Ok(Vec::new(alloc));
    };
    let place = at.child(alloc, number)?;
    parameters_of(alloc, routine, &place)
}
