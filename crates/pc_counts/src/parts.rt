//! The definitions of a part of a block are counted (ISO 7185, 6.2.1).

ghost use Rattle.std.specs.Prelude.{◌≡◌, true, IfOk, OnOk};
ghost use Rattle.pc_syntax.specs.Plain.{kids_of};
ghost use Rattle.pc_syntax.specs.WellFormed.{IsProper};
ghost use Rattle.pc_openings.specs.Declaring.{all_declared};
ghost use Rattle.pc_counts.specs.Counting.{all_names};
ghost use Rattle.pc_counts.specs.Counted.{Counted, TellsBefore};
ghost use Rattle.pc_counts.specs.PartKinds.{part_list};

use crate::before::times_before;
use crate::counting::{count_below, count_own};
use crate::counts::Counts;
use pc_places::Tables;
use pc_syntax::Tree;
use std::alloc::{AllocError, Global};

/// Counts what the nodes of a list declare, and says of each of them how often its name, or its first name, stood before it. Only memory
/// and numbers can fail.
pub(crate) fn count_part(
    counts: &mut Counts,
    alloc: Global,
    tables: &mut Tables,
    list: &Tree,
) -> Result<Vec<u32>, AllocError>
    requires part { part_list list.now.kind ≡ true }
    ensures before { IfOk result (λ bs. TellsBefore (kids_of list.now) counts.old tables.old.names.texts bs.items) }
    ensures counted { OnOk result (Counted (all_names (all_declared (kids_of list.now))) counts.old counts.new tables.old tables.new) }
    ensures proper { OnOk result (IsProper list.now) }
{
    let mut before = Vec::new(alloc);
    for kid in list.kid_slice() {
        let times = times_before(counts, tables, kid)?;
        before.push(times)?;
        count_own(counts, tables, kid)?;
        count_below(counts, tables, kid)?;
    }
    Ok(before)
}
