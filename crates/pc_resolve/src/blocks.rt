//! The blocks of a program, and the routines in them (ISO 7185, 6.2.1).

ghost use Rattle.std.specs.Prelude.{◌≡◌, ◌<◌, true, length, option_map, IfOk};
ghost use Rattle.std.specs.Option.{ForSome};
ghost use Rattle.pc_syntax.specs.Classes.{has, is_routine as is_listed};
ghost use Rattle.pc_syntax.specs.declared.class.Class.TheVariants as class;
ghost use Rattle.pc_syntax.specs.declared.kind.Kind.TheVariants as kind;
ghost use Rattle.pc_scope.specs.Headings.{is_routine_kind};
ghost use Rattle.pc_names.specs.Chains.{chain_around, chain_of};
ghost use Rattle.pc_resolve.specs.Blocks.{IsSomeBlock, ResolvesBlock, IsSomeWithin, ResolvesWithin};
ghost use Rattle.pc_resolve.specs.Lists.{IsSomeList, IsSomeTree, ResolvesList, ResolvesRoutine};

use crate::entries::{add_all, block_entries, list_place, no_entries, routine_entries};
use crate::keeping::{keep, names_declared, no_block};
use crate::numbers::next;
use crate::parts::{block_part, is_routine};
use crate::resolver::{BlockEntries, Resolver};
use pc_block_laws::{
    blocks_know_each_name_once, bodies_stand_behind_declarations, known_types_are_own,
    logs_say_what_is_touched,
};
use pc_declaration_parts::declaration_parts;
use pc_facts::add_kid;
use pc_forms::{Form, form_of};
use pc_names::BlockId;
use pc_openings::open_block;
use pc_program_laws::{
    bodies_touch, changes_are_seen_in_errors_alone, declarations_see_no_signature,
    inner_routines_touch, routines_come_in_order,
};
use pc_routine_sites::{RoutineFound, RoutineSite, routine_site};
use pc_routines::{RoutineHead, Waiting, heads};
use pc_standing::routines_are_of_their_block;
use pc_statement_parts::statement_part;
use pc_syntax::{Path, Tree};
use std::alloc::{AllocError, Global};

/// What is found at the block of a routine with this tree, which is this kid of it, and at the routines inside; they are kept. Fails for want of memory and of numbers,
/// and where `Domains::close` does.
#[cycle(blocks)]
pub(crate) fn block(
    alloc: Global,
    resolver: &mut Resolver,
    around: Option<BlockId>,
    site: &RoutineSite,
    is_program: bool,
    number: u32,
    node: &Tree,
    tree: &Tree,
) -> Result<BlockEntries, AllocError>
    requires around { ForSome around (λ b. b.0 < length resolver.old.tables.names.chains) }
    requires node { node.now.kind ≡ kind.Block }
    requires some { IsSomeBlock (chain_around resolver.old.tables.names.chains (option_map (λ b. b.0) around)) site.now is_program number node.now tree.now resolver.old }
    ensures found { IfOk result (λ es. ResolvesBlock (chain_around resolver.old.tables.names.chains (option_map (λ b. b.0) around)) site.now is_program number node.now tree.now resolver.old resolver.new es) }
{
    match form_of(node) {
        Form::Block {
            consts,
            types,
            vars,
            routines,
            body,
        } => {
            resolver.tables.types.stays_in_order();
            routines_come_in_order();
            declarations_see_no_signature();
            bodies_touch();
            inner_routines_touch();
            changes_are_seen_in_errors_alone();
            routines_are_of_their_block();
            blocks_know_each_name_once();
            known_types_are_own();
            bodies_stand_behind_declarations();
            logs_say_what_is_touched();
            let declared = names_declared(alloc, &resolver.tables, site, tree)?;
            let index = resolver.kept.as_slice().len();
            let opened = open_block(
                &mut resolver.tables,
                around,
                site.parameters.as_slice(),
                Some(node),
            )?;
            let mark = resolver.touched.mark();
            let parts = declaration_parts(
                alloc,
                &mut resolver.tables,
                &mut resolver.domains,
                opened,
                site.owner,
                is_program,
                site.parameters.as_slice(),
                consts,
                types,
                vars,
            )?;
            let below = block_routines(alloc, resolver, opened, site, number, routines)?;
            resolver.domains.catch_up(alloc, &mut resolver.tables)?;
            resolver.tables.types.stays_in_order();
            keep(
                alloc,
                &resolver.tables,
                &mut resolver.kept,
                index,
                declared,
                opened,
                site,
            )?;
            let own = statement_part(
                alloc,
                &mut resolver.tables,
                &mut resolver.touched,
                opened,
                site.owner,
                site.own_function,
                mark,
                body,
            )?;
            let BlockEntries {
                own: of_routines,
                inside,
            } = below;
            let all = block_entries(alloc, parts, of_routines, own)?;
            Ok(BlockEntries { own: all, inside })
        }
        _ => unreachable!(),
    }
}

/// What is found at the routines of a block, which is this kid of its routine, and at those inside them: the entries of the first seen from
/// the list that they stand in.
#[cycle(blocks)]
fn block_routines(
    alloc: Global,
    resolver: &mut Resolver,
    block: BlockId,
    site: &RoutineSite,
    number: u32,
    list: &Tree,
) -> Result<BlockEntries, AllocError>
    requires block { block.0 < length resolver.old.tables.names.chains }
    requires list { has class.Routines list.now.kind ≡ true }
    requires some { IsSomeList block.0 site.now number list.now.kids resolver.old }
    ensures found { IfOk result (λ es. ResolvesList block.0 site.now number list.now resolver.old resolver.new es) }
{
    routines_come_in_order();
    bodies_stand_behind_declarations();
    inner_routines_touch();
    logs_say_what_is_touched();
    resolver.tables.types.stays_in_order();
    let place = list_place(alloc, &site.place, number)?;
    let heads = heads(alloc, &mut resolver.tables, list)?;
    let mut waiting = Waiting::new(alloc);
    let mut own = Vec::new(alloc);
    let mut inside = Vec::new(alloc);
    let mut count: u32 = 0;
    let mut rest = list.kid_slice();
    let mut headings = heads.as_slice();
    while let [kid, behind @ ..] = rest {
        let [head, more @ ..] = headings else {
            unreachable!();
        };
        count = next(count)?;
        let found = routine(
            alloc,
            resolver,
            &mut waiting,
            block,
            site,
            &place,
            count,
            head,
            kid,
        )?;
        let BlockEntries {
            own: here,
            inside: below,
        } = found;
        add_kid(&mut own, count, here)?;
        add_all(&mut inside, below)?;
        rest = behind;
        headings = more;
    }
    Ok(BlockEntries { own, inside })
}

/// What is found at a tree in such a list: the entries at a routine in its block, seen from itself; and those of the routine and of the
/// routines inside it, seen from the root. Nothing at a hole.
#[cycle(blocks)]
fn routine(
    alloc: Global,
    resolver: &mut Resolver,
    waiting: &mut Waiting,
    block: BlockId,
    site: &RoutineSite,
    list: &Path,
    number: u32,
    head: &RoutineHead,
    node: &Tree,
) -> Result<BlockEntries, AllocError>
    requires block { block.0 < length resolver.old.tables.names.chains }
    requires name { ForSome head.now.name (λ i. i.0 < length resolver.old.tables.names.texts) }
    requires listed { is_listed node.now.kind ≡ true }
    requires some { IsSomeTree block.0 site.now list.now number head.now node.now waiting.old resolver.old }
    ensures found { IfOk result (λ es. ResolvesRoutine block.0 site.now list.now number head.now node.now resolver.old waiting.old resolver.new waiting.new es) }
{
    if !is_routine(node.kind()) {
        return Ok(no_entries(alloc));
    }
    routines_come_in_order();
    resolver.tables.types.stays_in_order();
    let found = routine_site(
        alloc,
        &mut resolver.tables,
        waiting,
        block,
        site.owner,
        site.key.as_ref(),
        &site.near,
        list,
        number,
        head,
        node,
    )?;
    let RoutineFound {
        entries,
        heading,
        site: own_site,
    } = found;
    let below = routine_block(alloc, resolver, block, &own_site, node)?;
    let (kid, of_block) = below;
    let inside = routine_entries(alloc, &own_site.place, kid, heading, of_block)?;
    Ok(BlockEntries {
        own: entries,
        inside,
    })
}

/// What is found at the block of a routine in a block, and which kid it is; nothing where it has none.
#[cycle(blocks)]
fn routine_block(
    alloc: Global,
    resolver: &mut Resolver,
    around: BlockId,
    site: &RoutineSite,
    node: &Tree,
) -> Result<(u32, BlockEntries), AllocError>
    requires around { around.0 < length resolver.old.tables.names.chains }
    requires routine { is_routine_kind node.now.kind ≡ true }
    requires some { IsSomeWithin (chain_of resolver.old.tables.names.chains around.0) site.now node.now resolver.old }
    ensures found { IfOk result (λ p. ResolvesWithin (chain_of resolver.old.tables.names.chains around.0) site.now node.now p.0 resolver.old resolver.new p.1) }
{
    match block_part(node) {
        Some((number, part)) => {
            let found = block(
                alloc,
                resolver,
                Some(around),
                site,
                false,
                number,
                part,
                node,
            )?;
            Ok((number, found))
        }
        None => {
            no_block(alloc, resolver, Some(around), site, node)?;
            Ok((1, no_entries(alloc)))
        }
    }
}
