//! A routine is declared in the block around it, with its parameters and its result.

ghost use Rattle.std.specs.Prelude.{◌≡◌, ◌<◌, length, true, IfOk, OnOk};
ghost use Rattle.std.specs.Option.{ForSome};
ghost use Rattle.pc_scope.specs.Headings.{is_routine_kind};
ghost use Rattle.pc_places.specs.Places.{known, Moves};
ghost use Rattle.pc_routines.specs.Bare as bare;
ghost use Rattle.pc_routine_sites.specs.Declaring as declaring;
ghost use Rattle.pc_routine_sites.specs.Declaring.{TellsRoutine, DeclaresRoutine};

use pc_facts::{Declared, SignatureId, both};
use pc_headings::{RoutineHeading, heading};
use pc_names::{BlockId, NameClass, NameId};
use pc_places::{Tables, retell};
use pc_routines::{RoutineHead, declare_routine};
use pc_syntax::Tree;
use pc_types::OwnerId;
use std::alloc::{AllocError, Global};

/// Declares a routine with this heading in the block around it, whose owner is `around`, and goes through its heading; `own` is its own
/// number. Only memory and numbers can fail.
pub(crate) fn declare(
    alloc: Global,
    tables: &mut Tables,
    block: BlockId,
    around: OwnerId,
    own: OwnerId,
    head: &RoutineHead,
    later: bool,
    node: &Tree,
) -> Result<RoutineHeading, AllocError>
    requires block { block.0 < length tables.old.names.chains }
    requires own { own.0 < length (known tables.old).table.owners }
    requires name { ForSome head.now.name (λ i. i.0 < length tables.old.names.texts) }
    requires routine { is_routine_kind node.now.kind ≡ true }
    ensures { IfOk result (λ h. DeclaresRoutine block.0 around own head.now later node.now h tables.old tables.new) }
{
    let free = is_free(tables, block, head.name);
    let fresh = both(!later, free);
    declare_routine(tables, block, around, head, later)?;
    let found = heading(alloc, tables, block, own, later, node)?;
    tell(
        tables,
        block,
        around,
        head.name,
        head.is_function,
        found.signature,
        fresh,
    )?;
    Ok(found)
}

/// Whether there is a name, and nothing is declared under it in the block yet.
fn is_free(tables: &Tables, block: BlockId, name: Option<NameId>) -> bool
    ensures { result ≡ declaring.is_free tables.now.names block.0 name }
{
    match name {
        Some(id) => {
            let slot = tables.names.slot(block, id);
            both(!slot.passed, slot.known.is_none())
        }
        None => false,
    }
}

/// If it is fresh, the declaration of a routine has this signature from now on.
fn tell(
    tables: &mut Tables,
    block: BlockId,
    around: OwnerId,
    name: Option<NameId>,
    is_function: bool,
    signature: Option<SignatureId>,
    fresh: bool,
) -> Result<(), AllocError>
    requires block { block.0 < length tables.old.names.chains }
    requires name { ForSome name (λ i. i.0 < length tables.old.names.texts) }
    ensures told { OnOk result (TellsRoutine block.0 around name is_function signature fresh tables.old tables.new) }
    ensures moves { OnOk result (Moves block.0 tables.old tables.new) }
{
    if !fresh {
        return Ok(());
    }
    let Some(id) = name else {
        return Ok(());
    };
    let declared = signed(around, id, is_function, signature);
    retell(tables, block, id, declared)?;
    Ok(())
}

/// The declaration of a routine with this signature.
fn signed(
    around: OwnerId,
    name: NameId,
    is_function: bool,
    signature: Option<SignatureId>,
) -> Declared
    ensures { result ≡ declaring.signed_routine around name is_function signature }
{
    Declared {
        class: class_of(is_function),
        owner: around,
        name,
        value: None,
        of: None,
        signature,
    }
}

/// As what the name of a routine is declared.
fn class_of(is_function: bool) -> NameClass
    ensures { result ≡ bare.class_of is_function }
{
    if is_function {
        NameClass::Function
    } else {
        NameClass::Procedure
    }
}
