//! Result types of functions (ISO 7185, 6.6.2).

ghost use Rattle.std.specs.Prelude.{◌≡◌, true, IfOk};
ghost use Rattle.pc_syntax.specs.Classes.{has};
ghost use Rattle.pc_syntax.specs.declared.class.Class.TheVariants as class;
ghost use Rattle.pc_headings.specs.Headed.{AreThere};
ghost use Rattle.pc_headings.specs.Heads.{AddsResult};

use crate::types::{is_complex, used_type};
use pc_facts::add_note_if;
use pc_names::BlockId;
use pc_places::Tables;
use pc_report::ErrorEntry;
use pc_syntax::Tree;
use pc_type_rules::number_of;
use pc_types::{OwnerId, TypeId};
use std::alloc::{AllocError, Global};

/// What is found at the result type of a function: its entries (rows 1, 2, 4 and 22), seen from the name, and its number, where the type
/// is known. Only memory and numbers can fail.
pub(crate) fn result_type_of(
    alloc: Global,
    tables: &mut Tables,
    outer: BlockId,
    owner: OwnerId,
    node: &Tree,
) -> Result<(Vec<ErrorEntry>, Option<TypeId>), AllocError>
    requires there { AreThere tables.old outer.0 owner.0 }
    requires class { has class.Name node.now.kind ≡ true }
    ensures { IfOk result (λ r. AddsResult tables.old tables.new outer.0 node.now r.0.items r.1) }
{
    let used = used_type(
        alloc,
        &tables.names,
        &tables.types,
        tables.declarations.as_slice(),
        &mut tables.small,
        outer,
        node,
    )?;
    let is_wrong = is_complex(&tables.types, used.of);
    let number = number_of(alloc, &mut tables.types, owner, used.of)?;
    let mut entries = used.entries;
    add_note_if(
        alloc,
        &mut entries,
        is_wrong,
        22,
        b"result type not simple: ",
        node.word(),
    )?;
    Ok((entries, number))
}
