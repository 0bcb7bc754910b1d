//! The parameters of a block are counted (ISO 7185, 6.6.3).

ghost use Rattle.std.specs.Prelude.{List, OnOk};
ghost use Rattle.pc_facts.specs.Known.{Known};
ghost use Rattle.pc_facts.specs.declared.sighting.Declared.{Declared as Declaration};
ghost use Rattle.pc_counts.specs.Counting.{CountsParameters};

use crate::counts::Counts;
use pc_places::Parameter;
use std::alloc::AllocError;

/// Each of the parameters is counted.
pub(crate) fn count_each(counts: &mut Counts, parameters: &[Parameter]) -> Result<(), AllocError>
    ensures { OnOk result ((k : Known) (ds : List Declaration) → CountsParameters k ds parameters.now counts.old counts.new) }
{
    for parameter in parameters {
        counts.add(parameter.name)?;
    }
    Ok(())
}
