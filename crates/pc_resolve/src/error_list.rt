//! The error list of a program.

ghost use Rattle.std.specs.Prelude.{◌≡◌, true, IfOk};
ghost use Rattle.pc_rules.specs.Errors.{errors_of, entries_of, in_order, is_program};
ghost use Rattle.pc_rules.specs.RoutineList.{routines_of};
ghost use Rattle.pc_syntax.specs.WellFormed.{IsProper};

use crate::entries::routine_entries;
use crate::program::{begun, program_found, program_site};
use pc_headings::program_heading;
use pc_program_laws::routines_come_in_order;
use pc_report::{ErrorEntry, put_in_order};
use pc_syntax::{Kind, Tree};
use std::alloc::{AllocError, Global};

/// The error list of a tree: its rows in the order of the places. A hole in the place of a program has none. Fails for want of memory and
/// of numbers.
pub fn errors(alloc: Global, tree: &Tree) -> Result<Vec<ErrorEntry>, AllocError>
    ensures { IfOk result (λ es. es.items ≡ errors_of tree.now) }
{
    match tree.kind() {
        Kind::Program => {
            let entries = program_entries(alloc, tree)?;
            let ordered = in_their_order(alloc, entries)?;
            Ok(ordered)
        }
        _ => Ok(Vec::new(alloc)),
    }
}

/// The same entries in the order of the error list.
fn in_their_order(alloc: Global, entries: Vec<ErrorEntry>) -> Result<Vec<ErrorEntry>, AllocError>
    ensures { IfOk result (λ es. es.items ≡ in_order entries.items) }
{
    let mut all = entries;
    put_in_order(alloc, &mut all)?;
    Ok(all)
}

/// The entries of all routines of a program, the program itself first.
fn program_entries(alloc: Global, tree: &Tree) -> Result<Vec<ErrorEntry>, AllocError>
    requires proper { IsProper tree.now }
    requires program { is_program tree.now.kind ≡ true }
    ensures { IfOk result (λ es. es.items ≡ entries_of (routines_of tree.now) (routines_of tree.now)) }
{
    routines_come_in_order();
    let heading = program_heading(alloc, tree)?;
    let site = program_site(alloc);
    let mut resolver = begun(alloc)?;
    let found = program_found(alloc, &mut resolver, &site, tree)?;
    routine_entries(alloc, &site.place, 3, heading, found)
}
