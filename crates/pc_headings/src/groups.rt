//! Parameters of a routine, group after group (ISO 7185, 6.6.3.1).

ghost use Rattle.std.specs.Prelude.{◌≡◌, ℕ, List, true, IfOk};
ghost use Rattle.pc_syntax.specs.Classes.{has};
ghost use Rattle.pc_syntax.specs.Plain.{kids_of};
ghost use Rattle.pc_syntax.specs.WellFormed.{IsProper};
ghost use Rattle.pc_syntax.specs.declared.class.Class.TheVariants as class;
ghost use Rattle.pc_syntax.specs.declared.kind.Kind.TheVariants as kind;
ghost use Rattle.pc_forms.specs.declared.form.Form.TheVariants as form;
ghost use Rattle.pc_forms.specs.Form.{form_of};
ghost use Rattle.pc_headings.specs.Headed.{AreThere};
ghost use Rattle.pc_headings.specs.Groups.{AddsGroup, AddsNode, AddsRow, AddsParameters};

use crate::listed::{Group, Listed, Part};
use crate::names::{add_names, has_hole, next};
use crate::types::used_type;
use pc_facts::{add_kid, either};
use pc_forms::{Form, form_of};
use pc_names::{BlockId, NameClass};
use pc_places::Tables;
use pc_syntax::{Kind, Tree};
use pc_type_rules::number_of;
use pc_types::OwnerId;
use std::alloc::{AllocError, Global};

/// The parameters of a list, and its hole and entries, seen from it. Only memory and numbers can fail.
pub(crate) fn parameters(
    alloc: Global,
    tables: &mut Tables,
    outer: BlockId,
    owner: OwnerId,
    list: &Tree,
) -> Result<(Listed, Part), AllocError>
    requires there { AreThere tables.old outer.0 owner.0 }
    requires class { has class.Params list.now.kind ≡ true }
    ensures { IfOk result (λ r. AddsParameters tables.old tables.new outer.0 owner.0 list.now r.0 r.1) }
{
    let mut listed = Listed::new(alloc);
    let part = add_parameters(alloc, tables, outer, owner, &mut listed, list)?;
    Ok((listed, part))
}

/// The same behind parameters so far.
fn add_parameters(
    alloc: Global,
    tables: &mut Tables,
    outer: BlockId,
    owner: OwnerId,
    listed: &mut Listed,
    list: &Tree,
) -> Result<Part, AllocError>
    requires there { AreThere tables.old outer.0 owner.0 }
    requires class { has class.Params list.now.kind ≡ true }
    ensures { IfOk result (λ p. AddsRow tables.old tables.new outer.0 owner.0 listed.old listed.new (kids_of list.now) p.hole p.entries.items) }
{
    let mut entries = Vec::new(alloc);
    let mut hole = false;
    let mut count = 0;
    for kid in list.kid_slice() {
        count = next(count)?;
        let part = add_node(alloc, tables, outer, owner, listed, kid)?;
        hole = either(hole, part.hole);
        add_kid(&mut entries, count, part.entries)?;
    }
    Ok(Part { hole, entries })
}

/// A node of a list of parameters: a group, or a hole.
fn add_node(
    alloc: Global,
    tables: &mut Tables,
    outer: BlockId,
    owner: OwnerId,
    listed: &mut Listed,
    node: &Tree,
) -> Result<Part, AllocError>
    requires there { AreThere tables.old outer.0 owner.0 }
    requires class { has class.Parameter node.now.kind ≡ true }
    ensures { IfOk result (λ p. AddsNode tables.old tables.new outer.0 owner.0 listed.old listed.new node.now p) }
{
    match node.kind() {
        Kind::Valparam => {
            let (names, of) = value_group(node);
            let named = NameClass::Value;
            let part = add_group(alloc, tables, outer, owner, listed, named, names, of)?;
            Ok(part)
        }
        Kind::Varparam => {
            let (names, of) = variable_group(node);
            let named = NameClass::Reference;
            let part = add_group(alloc, tables, outer, owner, listed, named, names, of)?;
            Ok(part)
        }
        _ => Ok(Part {
            hole: true,
            entries: Vec::new(alloc),
        }),
    }
}

/// A group of parameters of this class, by its names and its type's name.
fn add_group(
    alloc: Global,
    tables: &mut Tables,
    outer: BlockId,
    owner: OwnerId,
    listed: &mut Listed,
    named: NameClass,
    names: &Tree,
    type_name: &Tree,
) -> Result<Part, AllocError>
    requires there { AreThere tables.old outer.0 owner.0 }
    requires class { has class.Name type_name.now.kind ≡ true }
    ensures { IfOk result (λ p. AddsGroup tables.old tables.new outer.0 owner.0 named listed.old listed.new names.now type_name.now p) }
{
    let used = used_type(
        alloc,
        &tables.names,
        &tables.types,
        tables.declarations.as_slice(),
        &mut tables.small,
        outer,
        type_name,
    )?;
    let number = number_of(alloc, &mut tables.types, owner, used.of)?;
    let group = Group {
        class: named,
        owner,
        of: used.of,
        number,
    };
    let own = add_names(alloc, tables, listed, group, names)?;
    let hole = either(has_hole(names), used.hole);
    let mut entries = Vec::new(alloc);
    add_kid(&mut entries, 1, own)?;
    add_kid(&mut entries, 2, used.entries)?;
    Ok(Part { hole, entries })
}

/// The names and the type's name of a group of value parameters.
pub(crate) fn value_group(node: &Tree) -> (&Tree, &Tree)
    requires { node.now.kind ≡ kind.Valparam }
    ensures form { form.Valparam result.0.now result.1.now ≡ form_of node.now }
    ensures class { has class.Name result.1.now.kind ≡ true }
    ensures proper { IsProper node.now }
{
    match form_of(node) {
        Form::Valparam { names, type_name } => (names, type_name),
        _ => unreachable!(),
    }
}

/// The same of variable parameters.
pub(crate) fn variable_group(node: &Tree) -> (&Tree, &Tree)
    requires { node.now.kind ≡ kind.Varparam }
    ensures form { form.Varparam result.0.now result.1.now ≡ form_of node.now }
    ensures class { has class.Name result.1.now.kind ≡ true }
    ensures proper { IsProper node.now }
{
    match form_of(node) {
        Form::Varparam { names, type_name } => (names, type_name),
        _ => unreachable!(),
    }
}
