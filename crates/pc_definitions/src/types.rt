//! Type definitions (ISO 7185, 6.4.1).

ghost use Rattle.std.specs.Prelude.{◌≡◌, ◌<◌, ◌+◌, true, length, get_or, IfOk, OnOk};
ghost use Rattle.pc_syntax.specs.Classes.{has};
ghost use Rattle.pc_syntax.specs.Plain.{kids_of};
ghost use Rattle.pc_syntax.specs.WellFormed.{IsProper};
ghost use Rattle.pc_syntax.specs.declared.class.Class.TheVariants as class;
ghost use Rattle.pc_syntax.specs.declared.kind.Kind.TheVariants as kind;
ghost use Rattle.pc_types.specs.Rows.{seen};
ghost use Rattle.pc_forms.specs.declared.form.Form.TheVariants as form;
ghost use Rattle.pc_places.specs.Places.{Makes};
ghost use Rattle.pc_denoters.specs.Goings.{MakesForm, MakesRow, ShowsFacts};
ghost use Rattle.pc_definitions.specs.Numbered.{AtNumber, AtDefinition, AtBefore, AmongBefore};
ghost use Rattle.pc_definitions.specs.NumberedLaws.{name_of};
ghost use Rattle.pc_definitions.specs.Rows.{MakesPart};

use crate::denoted::definition;
use crate::naming::{enter, leave};
use crate::rows::{declaration, second_name};
use pc_denoters::denoter;
use pc_expression_rules::hole;
use pc_facts::Facts;
use pc_forms::{Form, form_of};
use pc_names::{BlockId, NameClass};
use pc_places::Tables;
use pc_statement_rules::handed_on;
use pc_syntax::{Kind, Tree};
use pc_types::OwnerId;
use std::alloc::{AllocError, Global};

/// What is found at the type definitions of a block, which this routine owns, given how often the name of each stood before it in the
/// block, where it did. Behind them all are declared, but their types are not closed yet. Only memory and numbers can fail.
pub fn type_definitions(
    alloc: Global,
    tables: &mut Tables,
    block: BlockId,
    owner: OwnerId,
    before: &[u32],
    list: &Tree,
) -> Result<Facts, AllocError>
    requires block { block.0 < length tables.old.names.chains }
    requires owner { owner.0 < length (seen tables.old.types).owners }
    requires list { has class.Types list.now.kind ≡ true }
    ensures { IfOk result (λ f. MakesPart (AtBefore kind.Types kind.Typedef (kids_of list.now) before.now) block.0 owner.0 tables.old tables.new list.now f) }
{
    let found = each_type(alloc, tables, block, owner, before, list)?;
    let all = handed_on(alloc, Kind::Types, found)?;
    Ok(all)
}

/// What is found at each of them.
fn each_type(
    alloc: Global,
    tables: &mut Tables,
    block: BlockId,
    owner: OwnerId,
    before: &[u32],
    list: &Tree,
) -> Result<Vec<Facts>, AllocError>
    requires block { block.0 < length tables.old.names.chains }
    requires owner { owner.0 < length (seen tables.old.types).owners }
    requires list { has class.Types list.now.kind ≡ true }
    ensures row { IfOk result (λ fs. MakesRow ShowsFacts (AmongBefore kind.Typedef (kids_of list.now) before.now) block.0 owner.0 tables.old tables.new (kids_of list.now) fs.items) }
    ensures proper { OnOk result (IsProper list.now) }
{
    let mut found = Vec::new(alloc);
    let mut i: u32 = 0;
    for kid in list.kid_slice() {
        let repeated = before_at(before, i);
        i = next(i)?;
        let one = type_definition(alloc, tables, block, owner, i, repeated, kid)?;
        found.push(one)?;
    }
    Ok(found)
}

/// What is found at a type definition, given which kid of its list it is, from 1, and how often its name stood before in the block, if
/// it did. Only memory and numbers can fail.
pub fn type_definition(
    alloc: Global,
    tables: &mut Tables,
    block: BlockId,
    owner: OwnerId,
    kid: u32,
    before: u32,
    node: &Tree,
) -> Result<Facts, AllocError>
    requires block { block.0 < length tables.old.names.chains }
    requires owner { owner.0 < length (seen tables.old.types).owners }
    requires definition { has class.Typedef node.now.kind ≡ true }
    ensures { IfOk result (λ f. Makes ShowsFacts (AtDefinition kind.Typedef kid before node.now) block.0 owner.0 tables.old tables.new node.now f) }
{
    match form_of(node) {
        Form::Typedef { name, denoter } => {
            let found = type_defined(alloc, tables, block, owner, kid, before, name, denoter)?;
            Ok(found)
        }
        Form::Hole(sort) => Ok(hole(alloc, sort)),
        _ => unreachable!(),
    }
}

/// The same of a definition with this name and this denoter.
fn type_defined(
    alloc: Global,
    tables: &mut Tables,
    block: BlockId,
    owner: OwnerId,
    kid: u32,
    before: u32,
    name: &Tree,
    whole: &Tree,
) -> Result<Facts, AllocError>
    requires block { block.0 < length tables.old.names.chains }
    requires owner { owner.0 < length (seen tables.old.types).owners }
    requires name { has class.Name name.now.kind ≡ true }
    requires denoter { has class.Denoter whole.now.kind ≡ true }
    ensures { IfOk result (λ f. MakesForm (AtNumber kid before (name_of name.now)) block.0 owner.0 tables.old tables.new (form.Typedef name.now whole.now) f) }
{
    let naming = enter(tables, block, name)?;
    let here = definition(alloc, owner, naming, name.word(), kid, 0, before)?;
    let whole = denoter(alloc, tables, block, owner, here, false, whole)?;
    leave(
        tables,
        block,
        owner,
        naming,
        NameClass::Type,
        None,
        whole.value_type(),
    )?;
    let own = second_name(alloc, naming.is_second(), name.word())?;
    let found = declaration(alloc, Kind::Typedef, naming.is_nameless(), own, whole)?;
    Ok(found)
}

/// How often the name of the definition with this number stood before, by the list.
pub fn before_at(before: &[u32], i: u32) -> u32
    ensures { result ≡ get_or before.now i 0 }
{
    match before.get(i as usize) {
        Some(times) => *times,
        None => 0,
    }
}

/// The next number, if there is one.
pub fn next(i: u32) -> Result<u32, AllocError>
    ensures { IfOk result (λ n. n ≡ i + 1) }
{
    match i.checked_add(1) {
        Some(n) => Ok(n),
        None => Err(AllocError),
    }
}
