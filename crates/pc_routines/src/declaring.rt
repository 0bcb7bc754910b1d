//! The declaration of a routine (ISO 7185, 6.6.1, 6.6.2).

ghost use Rattle.std.specs.Prelude.{◌≡◌, ◌<◌, ◌++◌, ◌∷◌, [], not, ◌&&◌, true, length, slice_get, Some, IfOk, OnOk};
ghost use Rattle.std.specs.Option.{is_some, ForSome};
ghost use Rattle.pc_syntax.specs.Plain.{Plain};
ghost use Rattle.pc_syntax.specs.WellFormed.{IsProper};
ghost use Rattle.pc_scope.specs.Headings.{heading_of, is_routine_kind};
ghost use Rattle.pc_names.specs.Bindings.{slot_in, declared as declared_slot};
ghost use Rattle.pc_rules.specs.Declarations.{heading_here, is_later_declaration};
ghost use Rattle.pc_rules.specs.Meanings.{Local, Outside};
ghost use Rattle.pc_rules.specs.Places.{behind};
ghost use Rattle.pc_environment.specs.Decorating.{attributes_at};
ghost use Rattle.pc_places.specs.Places.{IsPlace, Moves, Rebound};
ghost use Rattle.pc_routines.specs.Bare as bare;
ghost use Rattle.pc_routines.specs.Bare.{bare_routine};
ghost use Rattle.pc_routines.specs.Heads.{ShowsHead};

use crate::head::RoutineHead;
use pc_facts::Declared;
use pc_names::{BlockId, DeclarationId, NameClass, NameId};
use pc_places::Tables;
use pc_types::OwnerId;
use std::alloc::AllocError;

/// Declares a routine in the block around it, whose owner this is, and which has this heading: the number of its declaration, which has no
/// signature yet. A later declaration of a forward one declares nothing, nor does a hole in the place of a name. Fails for want of memory,
/// and where there are as many declarations as numbers.
pub fn declare_routine(
    tables: &mut Tables,
    block: BlockId,
    owner: OwnerId,
    head: &RoutineHead,
    later: bool,
) -> Result<Option<DeclarationId>, AllocError>
    requires block { block.0 < length tables.old.names.chains }
    requires name { ForSome head.now.name (λ i. i.0 < length tables.old.names.texts) }
    ensures place { OnOk result ((out : Outside) (l : Local) (t : Plain) → is_routine_kind t.kind ≡ true → IsProper t → heading_here l ≡ heading_of t.kind t.kids → ShowsHead tables.old.names.texts head.now (heading_here l) → later ≡ is_later_declaration l → IsPlace tables.old block.0 owner.0 out l → IsPlace tables.new block.0 owner.0 out (behind l t.kind (attributes_at out l (bare_routine t)))) }
    ensures moves { OnOk result (Moves block.0 tables.old tables.new) }
    ensures added { OnOk result (bare.AddsRoutine block.0 owner head.now.name head.now.is_function later tables.old tables.new) }
    ensures some { IfOk result (λ d. is_some d ≡ (not later && is_some head.now.name)) }
    ensures declared { IfOk result (λ d. ForSome d (λ i. ForSome head.now.name (λ n. slice_get tables.new.declarations.items i.0 ≡ Some (bare.declared_routine owner n head.now.is_function)))) }
{
    if later {
        return Ok(None);
    }
    let Some(name) = head.name else {
        return Ok(None);
    };
    let declared = declared_routine(owner, name, head.is_function);
    let id = declare(tables, block, name, declared)?;
    Ok(Some(id))
}

/// The declaration of a routine, its signature aside.
fn declared_routine(owner: OwnerId, name: NameId, is_function: bool) -> Declared
    ensures { result ≡ bare.declared_routine owner name is_function }
{
    Declared {
        class: class_of(is_function),
        owner,
        name,
        value: None,
        of: None,
        signature: None,
    }
}

/// As what the name of a routine is declared.
fn class_of(is_function: bool) -> NameClass
    ensures { result ≡ bare.class_of is_function }
{
    if is_function {
        NameClass::Function
    } else {
        NameClass::Procedure
    }
}

/// One more name stands before in the block, with its declaration: the number of that.
fn declare(
    tables: &mut Tables,
    block: BlockId,
    name: NameId,
    declared: Declared,
) -> Result<DeclarationId, AllocError>
    requires block { block.0 < length tables.old.names.chains }
    requires name { name.0 < length tables.old.names.texts }
    ensures rebound { IfOk result (λ d. Rebound block.0 name.0 (declared_slot (slot_in tables.old.names.slots block.0 name.0) d) (declared ∷ []) tables.old tables.new) }
    ensures number { IfOk result (λ d. d.0 ≡ length tables.old.declarations.items) }
{
    let id = add_declaration(&mut tables.declarations, declared)?;
    tables.names.declare(block, name, id)?;
    Ok(id)
}

/// Adds a declaration: its number.
fn add_declaration(
    declarations: &mut Vec<Declared>,
    declared: Declared,
) -> Result<DeclarationId, AllocError>
    ensures number { IfOk result (λ i. i.0 ≡ length declarations.old.items) }
    ensures added { OnOk result (declarations.new.items ≡ declarations.old.items ++ declared ∷ []) }
{
    match u32::try_from(declarations.len()) {
        Ok(id) => {
            declarations.push(declared)?;
            Ok(DeclarationId(id))
        }
        Err(_) => Err(AllocError),
    }
}
