//! A routine in the block around it (ISO 7185, 6.6.1, 6.6.2).

ghost use Rattle.std.specs.Prelude.{◌≡◌, ◌<◌, List, length, true, option_copied, unwrap_or, IfOk, OnOk};
ghost use Rattle.std.specs.Option.{ForSome};
ghost use Rattle.pc_syntax.specs.Plain.{Plain};
ghost use Rattle.pc_scope.specs.Headings.{is_routine_kind};
ghost use Rattle.pc_rules.specs.Meanings.{Local};
ghost use Rattle.pc_rules.specs.RoutineList.{Forwarded, key_of, routines_of};
ghost use Rattle.pc_rules.specs.Routines.{Routine};
ghost use Rattle.pc_growth.specs.Grows.{Begins};
ghost use Rattle.pc_places.specs.Places.{known};
ghost use Rattle.pc_routine_sites.specs.Sites.{IsNext, StandsBefore, SiteFound};
ghost use Rattle.pc_routine_sites.specs.Visits.{Visits};

use crate::declaring::declare;
use crate::identity::identify;
use crate::passing::{given, parameters};
use crate::selves::own_function;
use crate::site::{RoutineFound, RoutineSite};
use pc_names::BlockId;
use pc_places::Tables;
use pc_routines::{RoutineHead, Waiting, routine};
use pc_syntax::{Key, Path, Tree};
use pc_types::OwnerId;
use std::alloc::{AllocError, Global};

/// What is found at a routine in the block around it, and where its own block begins; the block, its routine's number as an owner, the key
/// of that routine if it has one, and the nearest key around; where the list of routines stands, and which kid of it this one is. Only
/// memory and numbers can fail.
pub fn routine_site(
    alloc: Global,
    tables: &mut Tables,
    waiting: &mut Waiting,
    block: BlockId,
    owner: OwnerId,
    key: Option<&Key>,
    near: &Key,
    list: &Path,
    number: u32,
    head: &RoutineHead,
    node: &Tree,
) -> Result<RoutineFound, AllocError>
    requires block { block.0 < length tables.old.names.chains }
    requires owner { owner.0 < length (known tables.old).table.owners }
    requires name { ForSome head.now.name (λ i. i.0 < length tables.old.names.texts) }
    requires routine { is_routine_kind node.now.kind ≡ true }
    ensures found { IfOk result (λ f. (t : Plain) (ro r : Routine) (done beyond : List Routine) (l : Local) (fs : List Forwarded) → IsNext t ro r done beyond l fs list.now node.now → number ≡ l.kid → option_copied key.entry ≡ key_of ro.owner → StandsBefore (routines_of t) ro done l fs block.0 owner.0 head.now tables.old waiting.old → SiteFound (routines_of t) ro r done l fs block.0 owner.0 node.now f tables.new waiting.new) }
    ensures near { IfOk result (λ f. f.site.near ≡ unwrap_or f.site.key near.now) }
    ensures visits { OnOk result (Visits block.0 tables.old tables.new) }
    ensures domains { OnOk result (Begins (known tables.old).table.domains (known tables.new).table.domains) }
{
    let facts = routine(alloc, tables, block, head, waiting, node)?;
    let place = list.child(alloc, number)?;
    let identity = identify(
        alloc,
        &mut tables.types,
        &tables.names,
        waiting,
        key,
        near,
        place,
        head,
        facts.later,
        facts.first,
    )?;
    let found = declare(
        alloc,
        tables,
        block,
        owner,
        identity.owner,
        head,
        facts.later,
        node,
    )?;
    let own = parameters(alloc, waiting, head, facts.later, found.parameters)?;
    let forward = given(
        alloc,
        head.is_forward,
        identity.owner,
        &identity.key,
        own.as_slice(),
    )?;
    let function = own_function(node.kind(), identity.key.is_some(), owner, head.name);
    waiting.pass(head, forward)?;
    Ok(RoutineFound {
        entries: facts.entries,
        heading: found.entries,
        site: RoutineSite {
            owner: identity.owner,
            key: identity.key,
            near: identity.near,
            place: identity.place,
            is_later: facts.later,
            own_function: function,
            parameters: own,
        },
    })
}
