//! The program as the routine with which the walk begins.

ghost use Rattle.std.specs.Prelude.{◌≡◌, true, IfOk, OnOk};
ghost use Rattle.pc_rules.specs.Errors.{is_program};
ghost use Rattle.pc_syntax.specs.WellFormed.{IsProper};
ghost use Rattle.pc_resolve.specs.Program.{IsProgramSite, IsProgramFound, IsProgramKept, IsBegun};

use crate::blocks::block;
use crate::entries::no_entries;
use crate::keeping::no_block;
use crate::parts::program_block;
use crate::resolver::{BlockEntries, Resolver};
use pc_block_laws::{
    blocks_know_each_name_once, bodies_stand_behind_declarations, known_types_are_own,
    owners_are_new,
};
use pc_domains::Domains;
use pc_names::Names;
use pc_places::Tables;
use pc_program_laws::routines_come_in_order;
use pc_routine_sites::RoutineSite;
use pc_sightings::Touched;
use pc_syntax::{Key, Path, Tree};
use pc_targets::{each_block_is_good, targets_say_what_blocks_declare};
use pc_types::{OwnerId, Types};
use std::alloc::{AllocError, Global};

/// What is found at the block of a program and at the routines inside, nothing where a hole stands in its place, from where nothing is known;
/// all routines are kept. Fails for want of memory and of numbers, and where `Domains::close` does.
pub(crate) fn program_found(
    alloc: Global,
    resolver: &mut Resolver,
    site: &RoutineSite,
    tree: &Tree,
) -> Result<BlockEntries, AllocError>
    requires proper { IsProper tree.now }
    requires program { is_program tree.now.kind ≡ true }
    requires site { IsProgramSite site.now }
    requires begun { IsBegun resolver.old }
    ensures found { IfOk result (λ es. IsProgramFound tree.now es) }
    ensures kept { OnOk result (IsProgramKept tree.now resolver.new) }
{
    targets_say_what_blocks_declare();
    each_block_is_good();
    blocks_know_each_name_once();
    known_types_are_own();
    bodies_stand_behind_declarations();
    owners_are_new();
    routines_come_in_order();
    match program_block(tree) {
        Some((number, part)) => {
            let found = block(alloc, resolver, None, site, true, number, part, tree)?;
            Ok(found)
        }
        None => {
            no_block(alloc, resolver, None, site, tree)?;
            Ok(no_entries(alloc))
        }
    }
}

/// The program as a routine.
pub(crate) fn program_site(alloc: Global) -> RoutineSite
    ensures { IsProgramSite result }
{
    RoutineSite {
        owner: OwnerId::PROGRAM,
        key: Some(Key::root(alloc)),
        near: Key::root(alloc),
        place: Path::root(alloc),
        own_function: None,
        parameters: Vec::new(alloc),
        is_later: false,
    }
}

/// Nothing is known yet.
pub(crate) fn begun(alloc: Global) -> Result<Resolver, AllocError>
    ensures { IfOk result IsBegun }
{
    Ok(Resolver {
        tables: Tables {
            types: Types::new(alloc)?,
            names: Names::new(alloc),
            declarations: Vec::new(alloc),
            signatures: Vec::new(alloc),
            texts: Vec::new(alloc),
            small: Vec::new(alloc),
        },
        domains: Domains::new(alloc),
        touched: Touched::new(alloc),
        kept: Vec::new(alloc),
    })
}
