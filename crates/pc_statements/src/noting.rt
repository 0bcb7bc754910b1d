//! The log of variables, and an index of it.

ghost use Rattle.std.specs.Prelude.{◌≡◌, ◌++◌, ℕ, List, OnOk, map, option_to_list};
ghost use Rattle.pc_growth.specs.Grows.{Begins};
ghost use Rattle.pc_sightings.specs.TouchedLog.{numbers_of};

use pc_facts::Variable;
use pc_sightings::Touched;
use std::alloc::AllocError;

/// Adds a variable to the log, if there is one. Only memory can fail.
pub(crate) fn add_variable(
    touched: &mut Vec<Variable>,
    variable: Option<Variable>,
) -> Result<(), AllocError>
    ensures { OnOk result (touched.new.items ≡ touched.old.items ++ option_to_list variable) }
{
    if let Some(known) = variable {
        touched.push(known)?;
    }
    Ok(())
}

/// Notes the variables of the log that an index of its first ones doesn't have yet. Only memory can fail. Work: one step for each of
/// them.
pub(crate) fn catch_up(own: &mut Touched, touched: &[Variable]) -> Result<(), AllocError>
    ensures { OnOk result (Begins own.old (map numbers_of touched.now) → own.new ≡ map numbers_of touched.now) }
{
    for i in own.mark()..touched.len() {
        own.note(touched[i])?;
    }
    Ok(())
}
