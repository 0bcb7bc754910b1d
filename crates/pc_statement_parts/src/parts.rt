//! The statement part of a block (ISO 7185, 6.2.1, 6.8).

ghost use Rattle.std.specs.Prelude.{◌≡◌, ◌<◌, length, true, IfOk, OnOk};
ghost use Rattle.pc_syntax.specs.Classes.{has};
ghost use Rattle.pc_syntax.specs.declared.class.Class.TheVariants as class;
ghost use Rattle.pc_facts.specs.Shows.{value_of};
ghost use Rattle.pc_growth.specs.Grows.{Begins};
ghost use Rattle.pc_places.specs.Places.{known, Keeps};
ghost use Rattle.pc_statement_parts.specs.Noting.{NotesTouched};
ghost use Rattle.pc_statement_parts.specs.Parts.{AtPart, FindsAt};

use crate::noting::note_all;
use pc_bodies::{Body, Going};
use pc_facts::{Facts, Variable};
use pc_forms::Statement;
use pc_names::BlockId;
use pc_places::Tables;
use pc_report::ErrorEntry;
use pc_sightings::Touched;
use pc_statements::statement;
use pc_syntax::Tree;
use pc_types::OwnerId;
use std::alloc::{AllocError, Global};
use std::mem;

/// What is found at the statement part of a block: its entries, as seen from it; and the variables that it touches are noted behind the
/// others. Only memory can fail.
pub fn statement_part(
    alloc: Global,
    tables: &mut Tables,
    touched: &mut Touched,
    block: BlockId,
    owner: OwnerId,
    own_function: Option<Variable>,
    mark: usize,
    node: &Tree,
) -> Result<Vec<ErrorEntry>, AllocError>
    requires block { block.0 < length tables.old.names.chains }
    requires statement { has class.Body node.now.kind ≡ true }
    ensures found { IfOk result (λ es. AtPart tables.old block.0 owner.0 own_function touched.old mark node.now (λ a. (es.items ≡ a.as_value.entries) × NotesTouched (known tables.new) touched.old touched.new a.touches)) }
    ensures keeps { OnOk result (Keeps tables.old tables.new) }
{
    let mut going = Going {
        opened: Vec::new(alloc),
        touched: Vec::new(alloc),
        texts: mem::replace(&mut tables.texts, Vec::new(alloc)),
        small: mem::replace(&mut tables.small, Vec::new(alloc)),
    };
    let found = facts_of(
        alloc,
        tables,
        touched,
        block,
        owner,
        own_function,
        mark,
        &mut going,
        node,
    )?;
    note_all(touched, going.touched.as_slice())?;
    tables.texts = going.texts;
    tables.small = going.small;
    Ok(entries_of(found))
}

/// What is found at a statement part by these tables, their texts aside, and which variables it touches.
fn facts_of(
    alloc: Global,
    tables: &Tables,
    inside: &Touched,
    block: BlockId,
    owner: OwnerId,
    own_function: Option<Variable>,
    mark: usize,
    going: &mut Going,
    node: &Tree,
) -> Result<Facts, AllocError>
    requires block { block.0 < length tables.now.names.chains }
    requires statement { has class.Body node.now.kind ≡ true }
    ensures found { IfOk result (FindsAt tables.now block.0 owner.0 own_function inside.now mark going.old going.new node.now) }
    ensures texts { OnOk result (Begins going.old.texts.items going.new.texts.items) }
{
    let body = Body {
        types: &tables.types,
        names: &tables.names,
        declarations: tables.declarations.as_slice(),
        signatures: tables.signatures.as_slice(),
        block,
        owner,
        own_function,
        inside,
        mark,
    };
    let found = statement(alloc, &body, going, &Statement::new(node));
    let Body {
        types: _,
        names: _,
        declarations: _,
        signatures: _,
        block: _,
        owner: _,
        own_function: _,
        inside: _,
        mark: _,
    } = body;
    found
}

/// The entries at a node, where a value is needed.
fn entries_of(found: Facts) -> Vec<ErrorEntry>
    ensures { result.items ≡ (value_of found.judgement).entries.items }
{
    found.judgement.into_value().entries
}
