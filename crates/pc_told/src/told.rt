//! The types of an expression of a statement part, from the tables of its block.

ghost use Rattle.std.specs.Prelude.{◌≡◌, ◌<◌, length, true, IfOk, OnOk};
ghost use Rattle.pc_syntax.specs.Classes.{has};
ghost use Rattle.pc_syntax.specs.declared.class.Class.TheVariants as class;
ghost use Rattle.pc_types.specs.Rows.{seen};
ghost use Rattle.pc_rules.specs.Meanings.{Local, Outside};
ghost use Rattle.pc_growth.specs.Grows.{Begins};
ghost use Rattle.pc_places.specs.Places.{known, Keeps};
ghost use Rattle.pc_told.specs.Place.{AllTypes, AtPlace, FindsTypes, ShowsTypes};
ghost use Rattle.pc_told.specs.Tells.{StandsAt};
ghost use Rattle.pc_told.specs.Told.{told_on};

use crate::down::tell_down;
use crate::roles::{Context, Wanted};
use pc_bodies::{Body, Going};
use pc_facts::Variable;
use pc_names::BlockId;
use pc_places::Tables;
use pc_sightings::Touched;
use pc_syntax::{Kind, Tree};
use pc_types::{Operand, OwnerId};
use std::alloc::{AllocError, Global};
use std::mem;

/// The types of the expression at the end of this way from a statement part, and of those below it, in preorder, each in its role; none
/// where there is no expression. Nothing is noted: the tables stay but for more texts. Only memory can fail. Work: the nodes of each
/// of these expressions, so the depth of the first times its size at most; and those of the accesses of withs on the way.
pub fn told_types(
    alloc: Global,
    tables: &mut Tables,
    touched: &Touched,
    block: BlockId,
    owner: OwnerId,
    own_function: Option<Variable>,
    mark: usize,
    node: &Tree,
    way: &[u32],
) -> Result<Vec<Option<Operand>>, AllocError>
    requires block { block.0 < length tables.old.names.chains }
    requires statement { has class.Body node.now.kind ≡ true }
    ensures found { IfOk result (λ xs. AtPlace tables.old block.0 owner.0 own_function touched.now mark (λ out l. ShowsTypes (known tables.new) xs.items (told_on out l node.now way.now))) }
    ensures keeps { OnOk result (Keeps tables.old tables.new) }
{
    let mut going = Going {
        opened: Vec::new(alloc),
        touched: Vec::new(alloc),
        texts: mem::replace(&mut tables.texts, Vec::new(alloc)),
        small: mem::replace(&mut tables.small, Vec::new(alloc)),
    };
    let told = types_of(
        alloc,
        tables,
        touched,
        block,
        owner,
        own_function,
        mark,
        &mut going,
        node,
        way,
    )?;
    tables.texts = going.texts;
    tables.small = going.small;
    Ok(told)
}

/// The same by these tables, their texts aside. Only memory can fail.
fn types_of(
    alloc: Global,
    tables: &Tables,
    inside: &Touched,
    block: BlockId,
    owner: OwnerId,
    own_function: Option<Variable>,
    mark: usize,
    going: &mut Going,
    node: &Tree,
    way: &[u32],
) -> Result<Vec<Option<Operand>>, AllocError>
    requires block { block.0 < length tables.now.names.chains }
    requires statement { has class.Body node.now.kind ≡ true }
    ensures found { IfOk result (λ xs. FindsTypes tables.now block.0 owner.0 own_function inside.now mark going.old node.now way.now xs.items) }
    ensures texts { OnOk result (Begins going.old.texts.items going.new.texts.items) }
{
    let body = Body {
        types: &tables.types,
        names: &tables.names,
        declarations: tables.declarations.as_slice(),
        signatures: tables.signatures.as_slice(),
        block,
        owner,
        own_function,
        inside,
        mark,
    };
    let told = types_in(alloc, &body, going, node, way);
    let Body {
        types: _,
        names: _,
        declarations: _,
        signatures: _,
        block: _,
        owner: _,
        own_function: _,
        inside: _,
        mark: _,
    } = body;
    told
}

/// The same, given what the statement part sees. Only memory can fail.
fn types_in(
    alloc: Global,
    body: &Body,
    going: &mut Going,
    node: &Tree,
    way: &[u32],
) -> Result<Vec<Option<Operand>>, AllocError>
    requires block { body.now.block.0 < length body.now.names.now.chains }
    requires statement { has class.Body node.now.kind ≡ true }
    ensures told { IfOk result (λ xs. (out : Outside) (l : Local) → StandsAt body.now going.old out l → AllTypes (seen body.now.types.now) xs.items (told_on out l node.now way.now)) }
    ensures texts { OnOk result (Begins going.old.texts.items going.new.texts.items) }
{
    let mut told = Vec::new(alloc);
    let above = Context {
        kind: Kind::Block,
        outer: Kind::Program,
        wanted: Wanted::Values,
    };
    tell_down(
        alloc,
        body,
        going,
        above,
        Wanted::Values,
        0,
        node,
        way,
        &mut told,
    )?;
    Ok(told)
}
