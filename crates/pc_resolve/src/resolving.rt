//! What is known of a program, and of each of its routines, behind it.

ghost use Rattle.std.specs.Prelude.{◌≡◌, true, IfOk};
ghost use Rattle.pc_rules.specs.Errors.{is_program};
ghost use Rattle.pc_syntax.specs.WellFormed.{IsProper};
ghost use Rattle.pc_sightings.specs.TouchedLog.{AreApart};
ghost use Rattle.pc_decl.specs.Annotated.{annotated};
ghost use Rattle.pc_own_names.specs.ShowsNames.{AllShowRoutines};
ghost use Rattle.pc_places.specs.Places.{known};
ghost use Rattle.pc_rules.specs.RoutineList.{routines_of};
ghost use Rattle.pc_resolve.specs.Kept.{AreKept};

use crate::program::{begun, program_found, program_site};
use crate::resolver::Resolver;
use pc_own_names::RoutineNames;
use pc_places::Tables;
use pc_syntax::{Kind, Tree};
use std::alloc::{AllocError, Global};

/// The tables of a program as they stand behind it; and what its routines declare, in text order, each name with what it means where its
/// routine's block ends, by the numbers of these tables.
#[derive(Drop)]
pub struct Resolved {
    pub tables: Tables,
    pub routines: Vec<RoutineNames>,
}

/// What the routines of a program declare, the program first, and the tables behind it. A hole in the place of a program has no routines.
/// Fails for want of memory and of numbers, and where `Domains::close` does.
pub fn resolve(alloc: Global, tree: &Tree) -> Result<Resolved, AllocError>
    ensures shown { IfOk result (λ x. AllShowRoutines tree.now (known x.tables) x.routines.items (annotated tree.now).routines) }
    ensures apart { IfOk result (λ x. AreApart (known x.tables).table.owners) }
{
    match tree.kind() {
        Kind::Program => program_resolved(alloc, tree),
        _ => {
            let none = begun(alloc)?;
            Ok(behind(none))
        }
    }
}

/// The same of a tree that is a program.
fn program_resolved(alloc: Global, tree: &Tree) -> Result<Resolved, AllocError>
    requires proper { IsProper tree.now }
    requires program { is_program tree.now.kind ≡ true }
    ensures kept { IfOk result (λ x. AreKept (routines_of tree.now) (known x.tables) x.routines.items (routines_of tree.now)) }
    ensures apart { IfOk result (λ x. AreApart (known x.tables).table.owners) }
{
    let mut resolver = begun(alloc)?;
    let site = program_site(alloc);
    program_found(alloc, &mut resolver, &site, tree)?;
    Ok(behind(resolver))
}

/// What is known and kept behind a program.
fn behind(resolver: Resolver) -> Resolved
    ensures tables { result.tables ≡ resolver.tables }
    ensures routines { result.routines ≡ resolver.kept }
{
    let Resolver { tables, kept, .. } = resolver;
    Resolved {
        tables,
        routines: kept,
    }
}
