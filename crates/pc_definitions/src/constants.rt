//! Constant definitions (ISO 7185, 6.3).

ghost use Rattle.std.specs.Prelude.{◌≡◌, ◌<◌, true, length, IfOk, OnOk};
ghost use Rattle.pc_syntax.specs.Classes.{has};
ghost use Rattle.pc_syntax.specs.Plain.{kids_of};
ghost use Rattle.pc_syntax.specs.WellFormed.{IsProper};
ghost use Rattle.pc_syntax.specs.declared.class.Class.TheVariants as class;
ghost use Rattle.pc_forms.specs.declared.form.Form.TheVariants as form;
ghost use Rattle.pc_places.specs.Places.{Makes};
ghost use Rattle.pc_denoters.specs.Goings.{Anywhere, MakesForm, MakesRow, ShowsFacts};

use crate::naming::{enter, leave};
use crate::rows::{declaration, second_name};
use pc_expression_rules::hole;
use pc_facts::Facts;
use pc_forms::{Form, form_of};
use pc_names::{BlockId, NameClass};
use pc_places::{Tables, constant_at_place};
use pc_statement_rules::handed_on;
use pc_syntax::{Kind, Tree};
use pc_types::OwnerId;
use std::alloc::{AllocError, Global};

/// What is found at the constant definitions of a block, which this routine owns. Only memory and numbers can fail.
pub fn constant_definitions(
    alloc: Global,
    tables: &mut Tables,
    block: BlockId,
    owner: OwnerId,
    list: &Tree,
) -> Result<Facts, AllocError>
    requires block { block.0 < length tables.old.names.chains }
    requires list { has class.Consts list.now.kind ≡ true }
    ensures { IfOk result (λ f. Makes ShowsFacts Anywhere block.0 owner.0 tables.old tables.new list.now f) }
{
    let found = each_constant(alloc, tables, block, owner, list)?;
    let all = handed_on(alloc, Kind::Consts, found)?;
    Ok(all)
}

/// What is found at each of them.
fn each_constant(
    alloc: Global,
    tables: &mut Tables,
    block: BlockId,
    owner: OwnerId,
    list: &Tree,
) -> Result<Vec<Facts>, AllocError>
    requires block { block.0 < length tables.old.names.chains }
    requires list { has class.Consts list.now.kind ≡ true }
    ensures row { IfOk result (λ fs. MakesRow ShowsFacts Anywhere block.0 owner.0 tables.old tables.new (kids_of list.now) fs.items) }
    ensures proper { OnOk result (IsProper list.now) }
{
    let mut found = Vec::new(alloc);
    for kid in list.kid_slice() {
        let one = constant_definition(alloc, tables, block, owner, kid)?;
        found.push(one)?;
    }
    Ok(found)
}

/// What is found at a constant definition. Only memory and numbers can fail.
pub fn constant_definition(
    alloc: Global,
    tables: &mut Tables,
    block: BlockId,
    owner: OwnerId,
    node: &Tree,
) -> Result<Facts, AllocError>
    requires block { block.0 < length tables.old.names.chains }
    requires definition { has class.Constdef node.now.kind ≡ true }
    ensures { IfOk result (λ f. Makes ShowsFacts Anywhere block.0 owner.0 tables.old tables.new node.now f) }
{
    match form_of(node) {
        Form::Constdef { name, value } => {
            let found = constant_defined(alloc, tables, block, owner, name, value)?;
            Ok(found)
        }
        Form::Hole(sort) => Ok(hole(alloc, sort)),
        _ => unreachable!(),
    }
}

/// The same of a definition with this name and this constant.
fn constant_defined(
    alloc: Global,
    tables: &mut Tables,
    block: BlockId,
    owner: OwnerId,
    name: &Tree,
    value: &Tree,
) -> Result<Facts, AllocError>
    requires block { block.0 < length tables.old.names.chains }
    requires name { has class.Name name.now.kind ≡ true }
    requires value { has class.Constant value.now.kind ≡ true }
    ensures { IfOk result (λ f. MakesForm Anywhere block.0 owner.0 tables.old tables.new (form.Constdef name.now value.now) f) }
{
    let naming = enter(tables, block, name)?;
    let value = constant_at_place(alloc, tables, block, value)?;
    leave(
        tables,
        block,
        owner,
        naming,
        NameClass::Constant,
        value.constant,
        None,
    )?;
    let own = second_name(alloc, naming.is_second(), name.word())?;
    let found = declaration(alloc, Kind::Constdef, naming.is_nameless(), own, value)?;
    Ok(found)
}
