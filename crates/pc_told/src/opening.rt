//! The records that withs open for what stands inside of them (ISO 7185, 6.8.3.10).

ghost use Rattle.std.specs.Prelude.{◌≡◌, ◌<◌, ◌≤◌, length, take, slice_get, true, Some, OnOk};
ghost use Rattle.pc_syntax.specs.Classes.{is_access};
ghost use Rattle.pc_syntax.specs.Plain.{kids_of};
ghost use Rattle.pc_syntax.specs.WellFormed.{IsProper};
ghost use Rattle.pc_syntax.specs.declared.kind.Kind.TheVariants as kind;
ghost use Rattle.pc_forms.specs.Form.{form_of};
ghost use Rattle.pc_forms.specs.declared.form.Form.TheVariants as form;
ghost use Rattle.pc_growth.specs.Grows.{Begins};
ghost use Rattle.pc_rules.specs.Meanings.{Local, Outside};
ghost use Rattle.pc_environment.specs.Sight.{is_body};
ghost use Rattle.pc_told.specs.Opens.{Opens};
ghost use Rattle.pc_told.specs.Tells.{StandsAt};
ghost use Rattle.pc_told.specs.Told.{kid_place};

use pc_bodies::{Body, Going, expression};
use pc_forms::{Expression, Form, form_of};
use pc_sightings::open;
use pc_statement_rules::Opening;
use pc_syntax::{Kind, Tree};
use std::alloc::{AllocError, Global};

/// Opens the records that are open where the kid of a node stands that has this many before it. Only memory can fail.
pub(crate) fn open_before(
    alloc: Global,
    body: &Body,
    going: &mut Going,
    node: &Tree,
    index: usize,
) -> Result<(), AllocError>
    requires block { body.now.block.0 < length body.now.names.now.chains }
    requires body { is_body node.now.kind ≡ true }
    requires in_bounds { index < length (kids_of node.now) }
    ensures stands { OnOk result ((out : Outside) (l : Local) → StandsAt body.now going.old out l → StandsAt body.now going.new out (kid_place out l node.now index)) }
    ensures texts { OnOk result (Begins going.old.texts.items going.new.texts.items) }
{
    match node.kind() {
        Kind::With => {
            open_inside(alloc, body, going, node, index)?;
            Ok(())
        }
        Kind::Accesses => {
            open_first(alloc, body, going, node, index)?;
            Ok(())
        }
        _ => Ok(()),
    }
}

/// The same of a with: at its statement all records are open.
fn open_inside(
    alloc: Global,
    body: &Body,
    going: &mut Going,
    node: &Tree,
    index: usize,
) -> Result<(), AllocError>
    requires block { body.now.block.0 < length body.now.names.now.chains }
    requires with { node.now.kind ≡ kind.With }
    requires in_bounds { index < length (kids_of node.now) }
    ensures stands { OnOk result ((out : Outside) (l : Local) → StandsAt body.now going.old out l → StandsAt body.now going.new out (kid_place out l node.now index)) }
    ensures texts { OnOk result (Begins going.old.texts.items going.new.texts.items) }
{
    if index == 0 {
        return Ok(());
    }
    let (records, _) = with_parts(node);
    let count = records.kid_slice().len();
    open_first(alloc, body, going, records, count)?;
    Ok(())
}

/// The accesses of a with, and its statement.
fn with_parts(node: &Tree) -> (&Tree, &Tree)
    requires { node.now.kind ≡ kind.With }
    ensures form { form.With result.0.now result.1.now ≡ form_of node.now }
    ensures proper { IsProper node.now }
{
    match form_of(node) {
        Form::With { records, body } => (records, body),
        _ => unreachable!(),
    }
}

/// Opens the records of the first accesses of a list, each with those before it open. Only memory can fail.
fn open_first(
    alloc: Global,
    body: &Body,
    going: &mut Going,
    list: &Tree,
    count: usize,
) -> Result<(), AllocError>
    requires block { body.now.block.0 < length body.now.names.now.chains }
    requires list { list.now.kind ≡ kind.Accesses }
    requires in_bounds { count ≤ length (kids_of list.now) }
    ensures { OnOk result (Opens body.now going.old going.new (take count (kids_of list.now))) }
{
    let mut opening = Opening::new(alloc);
    for i in 0..count {
        let access = expression(alloc, body, going, &access_at(list, i))?;
        let of = access.place_type();
        opening.add(alloc, body.types, access)?;
        open(&mut going.opened, of)?;
    }
    Ok(())
}

/// The access of a list that has this many before it.
fn access_at<'a>(list: &'a Tree, index: usize) -> Expression<'a>
    requires list { list.now.kind ≡ kind.Accesses }
    requires in_bounds { index < length (kids_of list.now) }
    ensures found { slice_get (kids_of list.now) index ≡ Some result }
    ensures access { is_access result.kind ≡ true }
    ensures proper { IsProper list.now }
{
    let kids = list.kid_slice();
    Expression::new(&kids[index])
}
