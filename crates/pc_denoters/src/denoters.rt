//! Denoters of types (ISO 7185, 6.4).

ghost use Rattle.std.specs.Prelude.{◌≡◌, ◌++◌, [], Bool, true, false, IfOk, OnOk};
ghost use Rattle.pc_syntax.specs.Classes.{has};
ghost use Rattle.pc_syntax.specs.Plain.{kids_of};
ghost use Rattle.pc_syntax.specs.WellFormed.{IsProper};
ghost use Rattle.pc_syntax.specs.declared.class.Class.TheVariants as class;
ghost use Rattle.pc_forms.specs.declared.form.Form.TheVariants as form;
ghost use Rattle.pc_places.specs.Places.{Makes};
ghost use Rattle.pc_denoters.specs.Goings.{AtHere, AreThere, MakesForm, ShowsFacts, ShowsKids};
ghost use Rattle.pc_denoters.specs.FieldNaming.{AreTwice, field_trees};
ghost use Rattle.pc_denoters.specs.FieldRows.{ShowsField, ShowsFieldLists};
ghost use Rattle.pc_denoters.specs.Passing.{names_of, repeats_of};

use crate::definitions::{inside, next};
use crate::domains::pointer_to_name;
use crate::enumerations::enumeration;
use crate::fields::{FieldFound, all_fields, field_names, field_of, no_field};
use crate::lists::any_hole;
use crate::names::type_at_name;
use crate::simple::{empty_record, subrange_between};
use pc_expression_rules::hole;
use pc_facts::Facts;
use pc_forms::{Form, form_of};
use pc_names::BlockId;
use pc_places::Tables;
use pc_syntax::{Tree, Word};
use pc_type_rules::{array, number_of, packed, record_type, set};
use pc_types::{Definition, OwnerId};
use std::alloc::{AllocError, Global};

/// What is found at a denoter that is defined here, behind `packed` or not: the constants of the enumerated types in it are declared in
/// the block. Only memory and numbers can fail.
#[cycle(denoters)]
pub fn denoter(
    alloc: Global,
    tables: &mut Tables,
    block: BlockId,
    owner: OwnerId,
    here: Definition,
    is_packed: bool,
    node: &Tree,
) -> Result<Facts, AllocError>
    requires there { AreThere tables.old block.0 owner.0 here }
    requires denoter { has class.Denoter node.now.kind ≡ true }
    ensures { IfOk result (λ f. Makes ShowsFacts (AtHere here is_packed) block.0 owner.0 tables.old tables.new node.now f) }
{
    match form_of(node) {
        Form::Tname { name } => {
            let found = type_at_name(alloc, tables, block, name)?;
            Ok(found)
        }
        Form::Enum { names } => {
            let found = enumeration(alloc, tables, block, owner, here, names)?;
            Ok(found)
        }
        Form::Subrange { low, high } => {
            let found = subrange_between(alloc, tables, block, here, low, high)?;
            Ok(found)
        }
        Form::Array { indexes, element } => {
            let found = array_of(
                alloc, tables, block, owner, here, is_packed, indexes, element,
            )?;
            Ok(found)
        }
        Form::Record { fields } => {
            let found = record_of(alloc, tables, block, owner, here, is_packed, fields)?;
            Ok(found)
        }
        Form::Record0 => {
            let found = empty_record(alloc, tables, here, is_packed)?;
            Ok(found)
        }
        Form::Setof { base } => {
            let found = set_of(alloc, tables, block, owner, here, is_packed, base)?;
            Ok(found)
        }
        Form::Packed { unpacked } => {
            let found = packed_of(alloc, tables, block, owner, here, unpacked)?;
            Ok(found)
        }
        Form::Pointer { name } => {
            let found = pointer_to_name(alloc, tables, block, owner, here, name)?;
            Ok(found)
        }
        Form::Hole(sort) => Ok(hole(alloc, sort)),
        _ => unreachable!(),
    }
}

/// What is found at a packed type.
#[cycle(denoters)]
fn packed_of(
    alloc: Global,
    tables: &mut Tables,
    block: BlockId,
    owner: OwnerId,
    here: Definition,
    unpacked: &Tree,
) -> Result<Facts, AllocError>
    requires there { AreThere tables.old block.0 owner.0 here }
    requires unpacked { has class.Structured unpacked.now.kind ≡ true }
    ensures { IfOk result (λ f. (is_packed : Bool) → MakesForm (AtHere here is_packed) block.0 owner.0 tables.old tables.new (form.Packed unpacked.now) f) }
{
    let first = inside(alloc, &here, 1)?;
    let kid = denoter(alloc, tables, block, owner, first, true, unpacked)?;
    let found = packed(alloc, kid)?;
    Ok(found)
}

/// What is found at a set type.
#[cycle(denoters)]
fn set_of(
    alloc: Global,
    tables: &mut Tables,
    block: BlockId,
    owner: OwnerId,
    here: Definition,
    is_packed: bool,
    base: &Tree,
) -> Result<Facts, AllocError>
    requires there { AreThere tables.old block.0 owner.0 here }
    requires base { has class.Ordinal base.now.kind ≡ true }
    ensures { IfOk result (λ f. MakesForm (AtHere here is_packed) block.0 owner.0 tables.old tables.new (form.Setof base.now) f) }
{
    let first = inside(alloc, &here, 1)?;
    let kid = denoter(alloc, tables, block, owner, first, false, base)?;
    let found = set(alloc, &mut tables.types, here, is_packed, kid)?;
    Ok(found)
}

/// What is found at an array type.
#[cycle(denoters)]
fn array_of(
    alloc: Global,
    tables: &mut Tables,
    block: BlockId,
    owner: OwnerId,
    here: Definition,
    is_packed: bool,
    indexes: &Tree,
    element: &Tree,
) -> Result<Facts, AllocError>
    requires there { AreThere tables.old block.0 owner.0 here }
    requires indexes { has class.Indexes indexes.now.kind ≡ true }
    requires element { has class.Denoter element.now.kind ≡ true }
    ensures { IfOk result (λ f. MakesForm (AtHere here is_packed) block.0 owner.0 tables.old tables.new (form.Array indexes.now element.now) f) }
{
    let first = inside(alloc, &here, 1)?;
    let second = inside(alloc, &here, 2)?;
    let types = index_types(alloc, tables, block, owner, first, indexes)?;
    let kid = denoter(alloc, tables, block, owner, second, false, element)?;
    let open = any_hole(&types);
    let found = array(alloc, &mut tables.types, here, is_packed, types, open, kid)?;
    Ok(found)
}

/// What is found at the index types of an array.
#[cycle(denoters)]
fn index_types(
    alloc: Global,
    tables: &mut Tables,
    block: BlockId,
    owner: OwnerId,
    here: Definition,
    list: &Tree,
) -> Result<Vec<Facts>, AllocError>
    requires there { AreThere tables.old block.0 owner.0 here }
    requires list { has class.Indexes list.now.kind ≡ true }
    ensures { IfOk result (λ fs. Makes ShowsKids (AtHere here false) block.0 owner.0 tables.old tables.new list.now fs.items) }
{
    let mut found = Vec::new(alloc);
    let mut i: u32 = 0;
    for kid in list.kid_slice() {
        i = next(i)?;
        let at = inside(alloc, &here, i)?;
        let one = denoter(alloc, tables, block, owner, at, false, kid)?;
        found.push(one)?;
    }
    Ok(found)
}

/// What is found at a record type.
#[cycle(denoters)]
fn record_of(
    alloc: Global,
    tables: &mut Tables,
    block: BlockId,
    owner: OwnerId,
    here: Definition,
    is_packed: bool,
    fields: &Tree,
) -> Result<Facts, AllocError>
    requires there { AreThere tables.old block.0 owner.0 here }
    requires fields { has class.Fields fields.now.kind ≡ true }
    ensures { IfOk result (λ f. MakesForm (AtHere here is_packed) block.0 owner.0 tables.old tables.new (form.Record fields.now) f) }
{
    let first = inside(alloc, &here, 1)?;
    let rows = field_lists(alloc, tables, block, owner, first, fields)?;
    let all = all_fields(alloc, rows)?;
    let found = record_type(
        alloc,
        &mut tables.types,
        here,
        is_packed,
        all.lists,
        all.hole,
        all.below,
        all.twice,
    )?;
    Ok(found)
}

/// What is found at the lists of fields of a record.
#[cycle(denoters)]
fn field_lists(
    alloc: Global,
    tables: &mut Tables,
    block: BlockId,
    owner: OwnerId,
    here: Definition,
    list: &Tree,
) -> Result<Vec<FieldFound>, AllocError>
    requires there { AreThere tables.old block.0 owner.0 here }
    requires list { has class.Fields list.now.kind ≡ true }
    ensures shows { IfOk result (λ fs. Makes ShowsFieldLists (AtHere here false) block.0 owner.0 tables.old tables.new list.now fs.items) }
    ensures twice { IfOk result (λ fs. AreTwice [] fs.items (kids_of list.now)) }
    ensures proper { IfOk result (λ _. IsProper list.now) }
{
    let mut found = Vec::new(alloc);
    let mut before = Vec::new(alloc);
    let mut i: u32 = 0;
    for kid in list.kid_slice() {
        i = next(i)?;
        let at = inside(alloc, &here, i)?;
        let one = field_list(alloc, tables, block, owner, at, &mut before, kid)?;
        found.push(one)?;
    }
    Ok(found)
}

/// What is found at a list of fields, whose names are put behind those of the record so far.
#[cycle(denoters)]
fn field_list(
    alloc: Global,
    tables: &mut Tables,
    block: BlockId,
    owner: OwnerId,
    here: Definition,
    before: &mut Vec<Word>,
    node: &Tree,
) -> Result<FieldFound, AllocError>
    requires there { AreThere tables.old block.0 owner.0 here }
    requires field { has class.Field node.now.kind ≡ true }
    ensures shows { IfOk result (λ f. Makes ShowsField (AtHere here false) block.0 owner.0 tables.old tables.new node.now f) }
    ensures before { OnOk result (before.new.items ≡ before.old.items ++ names_of (field_trees node.now)) }
    ensures twice { IfOk result (λ f. f.twice.items ≡ repeats_of before.old.items 1 (field_trees node.now)) }
{
    match form_of(node) {
        Form::Field { names, denoter: of } => {
            let second = inside(alloc, &here, 2)?;
            let list = field_names(alloc, before, names)?;
            let kid = denoter(alloc, tables, block, owner, second, false, of)?;
            let number = number_of(alloc, &mut tables.types, here.owner, kid.value_type())?;
            let found = field_of(alloc, list, kid, number)?;
            Ok(found)
        }
        Form::Hole(_) => Ok(no_field(alloc)),
        _ => unreachable!(),
    }
}
