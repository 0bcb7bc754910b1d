//! Headings of routines (ISO 7185, 6.6.1, 6.6.2).

ghost use Rattle.std.specs.Prelude.{◌≡◌, ◌<◌, true, false, length, IfOk};
ghost use Rattle.pc_syntax.specs.Classes.{has};
ghost use Rattle.pc_syntax.specs.declared.class.Class.TheVariants as class;
ghost use Rattle.pc_scope.specs.Headings.{is_routine_kind};
ghost use Rattle.pc_headings.specs.Headed.{AreThere, Headed};
ghost use Rattle.pc_headings.specs.Heads.{HeadsProcedure, HeadsFunction};

use crate::groups::parameters;
use crate::parts::{function_parts, procedure_part};
use crate::repeated::later_entries;
use crate::results::result_type_of;
use crate::routine_heading::RoutineHeading;
use crate::signatures::signature;
use pc_facts::add_kid;
use pc_names::BlockId;
use pc_places::Tables;
use pc_syntax::{Kind, Tree};
use pc_types::OwnerId;
use std::alloc::{AllocError, Global};

/// What is found at the heading of a procedure or a function, in the block `outer`; `owner` is the number of the routine itself. A later
/// declaration of a forward routine has entries alone. Only memory and numbers can fail.
pub fn heading(
    alloc: Global,
    tables: &mut Tables,
    outer: BlockId,
    owner: OwnerId,
    later: bool,
    node: &Tree,
) -> Result<RoutineHeading, AllocError>
    requires there { AreThere tables.old outer.0 owner.0 }
    requires routine { is_routine_kind node.now.kind ≡ true }
    ensures { IfOk result (λ r. Headed tables.old tables.new outer.0 owner.0 later node.now r) }
{
    if later {
        let entries = later_entries(
            alloc,
            &tables.names,
            &tables.types,
            tables.declarations.as_slice(),
            &mut tables.small,
            outer,
            node,
        )?;
        Ok(RoutineHeading {
            entries,
            parameters: Vec::new(alloc),
            signature: None,
        })
    } else {
        let found = first_heading(alloc, tables, outer, owner, node)?;
        Ok(found)
    }
}

/// The heading of a routine that is no later declaration.
fn first_heading(
    alloc: Global,
    tables: &mut Tables,
    outer: BlockId,
    owner: OwnerId,
    node: &Tree,
) -> Result<RoutineHeading, AllocError>
    requires there { AreThere tables.old outer.0 owner.0 }
    requires routine { is_routine_kind node.now.kind ≡ true }
    ensures { IfOk result (λ r. Headed tables.old tables.new outer.0 owner.0 false node.now r) }
{
    match node.kind() {
        Kind::Procedure => {
            let params = procedure_part(node);
            let found = procedure(alloc, tables, outer, owner, params)?;
            Ok(found)
        }
        Kind::Function => {
            let (params, of) = function_parts(node);
            let found = function(alloc, tables, outer, owner, params, of)?;
            Ok(found)
        }
        _ => Ok(RoutineHeading {
            entries: Vec::new(alloc),
            parameters: Vec::new(alloc),
            signature: None,
        }),
    }
}

/// The heading of a procedure with these parameters.
fn procedure(
    alloc: Global,
    tables: &mut Tables,
    outer: BlockId,
    owner: OwnerId,
    params: &Tree,
) -> Result<RoutineHeading, AllocError>
    requires there { AreThere tables.old outer.0 owner.0 }
    requires class { has class.Params params.now.kind ≡ true }
    ensures { IfOk result (λ r. HeadsProcedure tables.old tables.new outer.0 owner.0 params.now r) }
{
    let (listed, part) = parameters(alloc, tables, outer, owner, params)?;
    let hole = part.hole;
    let mut entries = Vec::new(alloc);
    add_kid(&mut entries, 2, part.entries)?;
    let signature = signature(
        &mut tables.signatures,
        hole,
        entries.as_slice(),
        listed.formals,
        listed.is_whole,
        true,
        None,
    )?;
    Ok(RoutineHeading {
        entries,
        parameters: listed.parameters,
        signature,
    })
}

/// The heading of a function with these parameters and this result type.
fn function(
    alloc: Global,
    tables: &mut Tables,
    outer: BlockId,
    owner: OwnerId,
    params: &Tree,
    result_type: &Tree,
) -> Result<RoutineHeading, AllocError>
    requires there { AreThere tables.old outer.0 owner.0 }
    requires class { has class.Params params.now.kind ≡ true }
    requires name { has class.Name result_type.now.kind ≡ true }
    ensures { IfOk result (λ r. HeadsFunction tables.old tables.new outer.0 owner.0 params.now result_type.now r) }
{
    let (listed, part) = parameters(alloc, tables, outer, owner, params)?;
    let (own, number) = result_type_of(alloc, tables, outer, owner, result_type)?;
    let hole = part.hole;
    let mut entries = Vec::new(alloc);
    add_kid(&mut entries, 2, part.entries)?;
    add_kid(&mut entries, 3, own)?;
    let signature = signature(
        &mut tables.signatures,
        hole,
        entries.as_slice(),
        listed.formals,
        listed.is_whole,
        number.is_some(),
        number,
    )?;
    Ok(RoutineHeading {
        entries,
        parameters: listed.parameters,
        signature,
    })
}
