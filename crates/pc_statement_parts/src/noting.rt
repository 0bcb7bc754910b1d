//! The log of the variables that statement parts have touched.

ghost use Rattle.std.specs.Prelude.{◌≡◌, ◌++◌, OnOk, map};
ghost use Rattle.pc_sightings.specs.TouchedLog.{numbers_of};

use pc_facts::Variable;
use pc_sightings::Touched;
use std::alloc::AllocError;

/// Notes these variables behind the others. Only memory can fail. Work: one step for each of them.
pub(crate) fn note_all(touched: &mut Touched, variables: &[Variable]) -> Result<(), AllocError>
    ensures { OnOk result (touched.new ≡ touched.old ++ map numbers_of variables.now) }
{
    for i in 0..variables.len() {
        touched.note(variables[i])?;
    }
    Ok(())
}
