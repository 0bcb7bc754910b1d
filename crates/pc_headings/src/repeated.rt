//! Headings of later declarations, whose parameters declare nothing (ISO 7185, 6.6.1, 6.6.2).

ghost use Rattle.std.specs.Prelude.{◌≡◌, ◌<◌, [], ℕ, List, true, length, IfOk};
ghost use Rattle.pc_syntax.specs.Classes.{has};
ghost use Rattle.pc_syntax.specs.declared.class.Class.TheVariants as class;
ghost use Rattle.pc_scope.specs.Headings.{is_routine_kind};
ghost use Rattle.pc_types.specs.Rows.{seen};
ghost use Rattle.pc_types.specs.Shapes.{Owner};
ghost use Rattle.pc_rules.specs.Attributes.{nodes, each_kid};
ghost use Rattle.pc_rules.specs.Headings.{repeated_entries, entries_of_heading};
ghost use Rattle.pc_rules.specs.Meanings.{Found, Local};
ghost use Rattle.pc_rules.specs.Routines.{bare};
ghost use Rattle.pc_environment.specs.Decorating.{below_at};
ghost use Rattle.pc_facts.specs.Known.{Known};
ghost use Rattle.pc_places.specs.Places.{node_at};
ghost use Rattle.pc_places.specs.Scenes.{SeesNames};
ghost use Rattle.pc_headings.specs.Groups.{IsHeadingPlace};
ghost use Rattle.pc_headings.specs.Headed.{marks_in};

use crate::groups::{value_group, variable_group};
use crate::names::next;
use crate::parts::{function_parts, procedure_part};
use crate::types::used_type;
use pc_facts::{Declared, add_kid};
use pc_names::{BlockId, Names};
use pc_report::ErrorEntry;
use pc_syntax::{Kind, Tree};
use pc_types::Types;
use std::alloc::{AllocError, Global};

/// The entries of the heading of a later declaration: rows 1, 2 and 4 at its type names. `small` is a buffer for a name in small
/// letters. Only memory can fail.
pub(crate) fn later_entries(
    alloc: Global,
    names: &Names,
    types: &Types,
    declarations: &[Declared],
    small: &mut Vec<u8>,
    outer: BlockId,
    node: &Tree,
) -> Result<Vec<ErrorEntry>, AllocError>
    requires block { outer.0 < length names.now.chains }
    requires routine { is_routine_kind node.now.kind ≡ true }
    ensures { IfOk result (λ es. (k : Known) (means : List ℕ → Found) (o : Owner) → k.table ≡ seen types.now → SeesNames k names.now declarations.now outer.0 [] means → es.items ≡ entries_of_heading node.now.kind true (marks_in means o node.now)) }
{
    match node.kind() {
        Kind::Procedure => {
            let params = procedure_part(node);
            let own = repeated(alloc, names, types, declarations, small, outer, params)?;
            let mut entries = Vec::new(alloc);
            add_kid(&mut entries, 2, own)?;
            Ok(entries)
        }
        Kind::Function => {
            let (params, of) = function_parts(node);
            let own = repeated(alloc, names, types, declarations, small, outer, params)?;
            let used = used_type(alloc, names, types, declarations, small, outer, of)?;
            let mut entries = Vec::new(alloc);
            add_kid(&mut entries, 2, own)?;
            add_kid(&mut entries, 3, used.entries)?;
            Ok(entries)
        }
        _ => Ok(Vec::new(alloc)),
    }
}

/// The same of a list of parameters, seen from it.
fn repeated(
    alloc: Global,
    names: &Names,
    types: &Types,
    declarations: &[Declared],
    small: &mut Vec<u8>,
    outer: BlockId,
    list: &Tree,
) -> Result<Vec<ErrorEntry>, AllocError>
    requires block { outer.0 < length names.now.chains }
    requires class { has class.Params list.now.kind ≡ true }
    ensures { IfOk result (λ es. (k : Known) (means : List ℕ → Found) (o : Owner) (l : Local) → k.table ≡ seen types.now → SeesNames k names.now declarations.now outer.0 [] means → IsHeadingPlace o l → es.items ≡ each_kid repeated_entries 1 (nodes (below_at (bare means) l list.now))) }
{
    let mut entries = Vec::new(alloc);
    let mut count = 0;
    for kid in list.kid_slice() {
        count = next(count)?;
        let own = repeated_at(alloc, names, types, declarations, small, outer, kid)?;
        add_kid(&mut entries, count, own)?;
    }
    Ok(entries)
}

/// The same of a node among the parameters.
fn repeated_at(
    alloc: Global,
    names: &Names,
    types: &Types,
    declarations: &[Declared],
    small: &mut Vec<u8>,
    outer: BlockId,
    node: &Tree,
) -> Result<Vec<ErrorEntry>, AllocError>
    requires block { outer.0 < length names.now.chains }
    requires class { has class.Parameter node.now.kind ≡ true }
    ensures { IfOk result (λ es. (k : Known) (means : List ℕ → Found) (o : Owner) (l : Local) → k.table ≡ seen types.now → SeesNames k names.now declarations.now outer.0 [] means → IsHeadingPlace o l → es.items ≡ repeated_entries (node_at (bare means) l node.now)) }
{
    match node.kind() {
        Kind::Valparam => {
            let (_, of) = value_group(node);
            let used = used_type(alloc, names, types, declarations, small, outer, of)?;
            let mut entries = Vec::new(alloc);
            add_kid(&mut entries, 2, used.entries)?;
            Ok(entries)
        }
        Kind::Varparam => {
            let (_, of) = variable_group(node);
            let used = used_type(alloc, names, types, declarations, small, outer, of)?;
            let mut entries = Vec::new(alloc);
            add_kid(&mut entries, 2, used.entries)?;
            Ok(entries)
        }
        _ => Ok(Vec::new(alloc)),
    }
}
