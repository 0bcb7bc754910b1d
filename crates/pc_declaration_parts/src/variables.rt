//! Variable declarations (ISO 7185, 6.5.1).

ghost use Rattle.std.specs.Prelude.{◌≡◌, ◌<◌, ◌+◌, true, length, get_or, IfOk, OnOk};
ghost use Rattle.pc_syntax.specs.Classes.{has};
ghost use Rattle.pc_syntax.specs.Plain.{kids_of};
ghost use Rattle.pc_syntax.specs.WellFormed.{IsProper};
ghost use Rattle.pc_syntax.specs.declared.class.Class.TheVariants as class;
ghost use Rattle.pc_syntax.specs.declared.kind.Kind.TheVariants as kind;
ghost use Rattle.pc_types.specs.Rows.{seen};
ghost use Rattle.pc_forms.specs.declared.form.Form.TheVariants as form;
ghost use Rattle.pc_scope.specs.Headings.{names_of};
ghost use Rattle.pc_rules.specs.Places.{first_of_names};
ghost use Rattle.pc_definitions.specs.Numbered.{AtNumber, AtDefinition, AtBefore, AmongBefore};
ghost use Rattle.pc_declaration_parts.specs.Turning.{Turns, TurnsRow, TurnsForm};

use crate::names::{first_word, naming_of};
use crate::telling::tell_variables;
use pc_definitions::{before_at, declaration, definition, enter_variables, next};
use pc_denoters::denoter;
use pc_domains::Domains;
use pc_expression_rules::hole;
use pc_facts::Facts;
use pc_forms::{Form, form_of};
use pc_names::BlockId;
use pc_places::Tables;
use pc_statement_rules::handed_on;
use pc_syntax::{Kind, Tree};
use pc_targets::blocks_see_the_same;
use pc_types::OwnerId;
use std::alloc::{AllocError, Global};

/// What is found at the variable declarations of a block, which this routine owns, given how often the first name of each stood before it
/// in the block, where it did. Fails for want of memory and of numbers, and where `Domains::completed` does.
pub fn variable_declarations(
    alloc: Global,
    tables: &mut Tables,
    domains: &mut Domains,
    block: BlockId,
    owner: OwnerId,
    before: &[u32],
    list: &Tree,
) -> Result<Facts, AllocError>
    requires block { block.0 < length tables.old.names.chains }
    requires owner { owner.0 < length (seen tables.old.types).owners }
    requires list { has class.Vars list.now.kind ≡ true }
    ensures { IfOk result (λ f. Turns (AtBefore kind.Vars kind.Vardef (kids_of list.now) before.now) block.0 owner.0 domains.old domains.new tables.old tables.new list.now f) }
{
    let found = each_variable(alloc, tables, domains, block, owner, before, list)?;
    let all = handed_on(alloc, Kind::Vars, found)?;
    Ok(all)
}

/// What is found at each of them.
fn each_variable(
    alloc: Global,
    tables: &mut Tables,
    domains: &mut Domains,
    block: BlockId,
    owner: OwnerId,
    before: &[u32],
    list: &Tree,
) -> Result<Vec<Facts>, AllocError>
    requires block { block.0 < length tables.old.names.chains }
    requires owner { owner.0 < length (seen tables.old.types).owners }
    requires list { has class.Vars list.now.kind ≡ true }
    ensures row { IfOk result (λ fs. TurnsRow (AmongBefore kind.Vardef (kids_of list.now) before.now) block.0 owner.0 domains.old domains.new tables.old tables.new (kids_of list.now) fs.items) }
    ensures proper { OnOk result (IsProper list.now) }
{
    let mut found = Vec::new(alloc);
    let mut i: u32 = 0;
    for kid in list.kid_slice() {
        let repeated = before_at(before, i);
        i = next(i)?;
        let one = variable_declaration(alloc, tables, domains, block, owner, i, repeated, kid)?;
        found.push(one)?;
    }
    Ok(found)
}

/// What is found at a variable declaration, given which kid of its list it is, from 1, and how often its first name stood before in the
/// block, if it did. Fails likewise.
pub fn variable_declaration(
    alloc: Global,
    tables: &mut Tables,
    domains: &mut Domains,
    block: BlockId,
    owner: OwnerId,
    kid: u32,
    before: u32,
    node: &Tree,
) -> Result<Facts, AllocError>
    requires block { block.0 < length tables.old.names.chains }
    requires owner { owner.0 < length (seen tables.old.types).owners }
    requires definition { has class.Vardef node.now.kind ≡ true }
    ensures { IfOk result (λ f. Turns (AtDefinition kind.Vardef kid before node.now) block.0 owner.0 domains.old domains.new tables.old tables.new node.now f) }
{
    match form_of(node) {
        Form::Vardef { names, denoter } => {
            let found = variables_declared(
                alloc, tables, domains, block, owner, kid, before, names, denoter,
            )?;
            Ok(found)
        }
        Form::Hole(sort) => {
            blocks_see_the_same();
            Ok(hole(alloc, sort))
        }
        _ => unreachable!(),
    }
}

/// The same of a declaration with these names and this denoter.
fn variables_declared(
    alloc: Global,
    tables: &mut Tables,
    domains: &mut Domains,
    block: BlockId,
    owner: OwnerId,
    kid: u32,
    before: u32,
    names: &Tree,
    whole: &Tree,
) -> Result<Facts, AllocError>
    requires block { block.0 < length tables.old.names.chains }
    requires owner { owner.0 < length (seen tables.old.types).owners }
    requires names { has class.Names names.now.kind ≡ true }
    requires denoter { has class.Denoter whole.now.kind ≡ true }
    ensures { IfOk result (λ f. TurnsForm (AtNumber kid before (first_of_names (names_of names.now.kids))) block.0 owner.0 domains.old domains.new tables.old tables.new (form.Vardef names.now whole.now) f) }
{
    blocks_see_the_same();
    tables.types.stays_in_order();
    let word = first_word(names);
    let naming = naming_of(tables, block, word)?;
    let here = definition(alloc, owner, naming, word, kid, 1, before)?;
    let variables = enter_variables(alloc, tables, block, owner, names)?;
    let whole = denoter(alloc, tables, block, owner, here, false, whole)?;
    let of = domains.completed(alloc, tables, whole.value_type())?;
    tables.types.stays_in_order();
    tell_variables(tables, block, owner, of, variables.first.as_slice())?;
    let found = declaration(
        alloc,
        Kind::Vardef,
        variables.hole,
        variables.entries,
        whole,
    )?;
    Ok(found)
}
