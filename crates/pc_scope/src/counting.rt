//! Which headings count for the routines of a block.

ghost use Rattle.std.specs.Prelude.{◌<◌, ◌^◌, length, IfOk};
ghost use Rattle.pc_scope.specs.WaitingIn.{Counts};

use crate::heading::Heading;
use crate::waiting::Waiting;
use pc_syntax::Tree;
use std::alloc::{AllocError, Global};

/// For each of some routines in order, the number of the routine whose heading counts for it, from 1.
pub fn counting(alloc: Global, routines: &[Tree]) -> Result<Vec<u32>, AllocError>
    requires { length routines.now < 2 ^ 32 }
    ensures { IfOk result (λ numbers. Counts routines.now numbers.items) }
{
    let mut waiting = Waiting::new(alloc);
    let mut numbers = Vec::with_capacity(alloc, routines.len())?;
    for (i, routine) in routines.iter().enumerate() {
        let heading = Heading::of(alloc, routine)?;
        numbers.push(waiting.counting(&heading, i as u32 + 1))?;
        waiting.pass(alloc, &heading, i as u32 + 1)?;
    }
    Ok(numbers)
}
