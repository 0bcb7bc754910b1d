//! Constants (ISO 7185, 6.3).

ghost use Rattle.std.specs.Prelude.{◌≡◌, ◌<◌, ◌∷◌, [], ℕ, List, length, true, IfOk, OnOk};
ghost use Rattle.pc_syntax.specs.Classes.{has};
ghost use Rattle.pc_syntax.specs.Plain.{kids_of};
ghost use Rattle.pc_syntax.specs.declared.class.Class.TheVariants as class;
ghost use Rattle.pc_syntax.specs.declared.kind.Kind.TheVariants as kind;
ghost use Rattle.pc_types.specs.Rows.{seen};
ghost use Rattle.pc_forms.specs.Operators as operators;
ghost use Rattle.pc_rules.specs.Meanings.{Local, Outside, find};
ghost use Rattle.pc_environment.specs.Decorating.{attributes_at};
ghost use Rattle.pc_facts.specs.Known.{Known};
ghost use Rattle.pc_facts.specs.Shows.{ShowsNode};
ghost use Rattle.pc_growth.specs.Grows.{Begins};
ghost use Rattle.pc_places.specs.Scenes.{SeesNames};

use crate::names::used_name;
use pc_expression_rules::{constant_name, hole, number_constant, signed_constant, string_constant};
use pc_facts::{Declared, Facts};
use pc_forms::{Form, Sign, form_of};
use pc_names::{BlockId, Names};
use pc_syntax::{Kind, Tree, Word};
use pc_types::{Operand, Types};
use std::alloc::{AllocError, Global};

/// What is found at a constant; the characters of a string become the last ones of the texts. Only memory can fail.
pub fn constant(
    alloc: Global,
    types: &Types,
    names: &Names,
    declarations: &[Declared],
    opened: &[Operand],
    block: BlockId,
    texts: &mut Vec<Word>,
    small: &mut Vec<u8>,
    node: &Tree,
) -> Result<Facts, AllocError>
    requires block { block.0 < length names.now.chains }
    requires class { has class.Constant node.now.kind ≡ true }
    ensures shows { IfOk result (λ f. (k : Known) (out : Outside) (l : Local) → k.table ≡ seen types.now → k.texts ≡ texts.old.items → SeesNames k names.now declarations.now block.0 opened.now (find out l) → ShowsNode (record k { texts = texts.new.items }) f (attributes_at out l node.now)) }
    ensures texts { OnOk result (Begins texts.old.items texts.new.items) }
{
    match node.kind() {
        Kind::Cstring => {
            let found = string_constant(alloc, types, texts, node.word())?;
            Ok(found)
        }
        Kind::Csign => {
            let parts = signed_part(node);
            let value = bare_constant(
                alloc,
                types,
                names,
                declarations,
                opened,
                block,
                small,
                parts.1,
            )?;
            let found = signed_constant(alloc, types, parts.0, value)?;
            Ok(found)
        }
        _ => {
            let found = bare_constant(
                alloc,
                types,
                names,
                declarations,
                opened,
                block,
                small,
                node,
            )?;
            Ok(found)
        }
    }
}

/// The same of a constant without a sign that is no text.
fn bare_constant(
    alloc: Global,
    types: &Types,
    names: &Names,
    declarations: &[Declared],
    opened: &[Operand],
    block: BlockId,
    small: &mut Vec<u8>,
    node: &Tree,
) -> Result<Facts, AllocError>
    requires block { block.0 < length names.now.chains }
    requires class { has class.Bare node.now.kind ≡ true }
    ensures { IfOk result (λ f. (k : Known) (out : Outside) (l : Local) → k.table ≡ seen types.now → SeesNames k names.now declarations.now block.0 opened.now (find out l) → ShowsNode k f (attributes_at out l node.now)) }
{
    match node.kind() {
        Kind::Cnumber => {
            let found = number_constant(alloc, types, node.word())?;
            Ok(found)
        }
        Kind::Cname => {
            let name = name_part(node);
            let named = used_name(names, types, declarations, opened, block, small, name)?;
            let found = constant_name(alloc, types, name.word(), named)?;
            Ok(found)
        }
        Kind::Hole(sort) => Ok(hole(alloc, sort)),
        _ => unreachable!(),
    }
}

/// The name of a constant that is one.
fn name_part(node: &Tree) -> &Tree
    requires { node.now.kind ≡ kind.Cname }
    ensures kids { kids_of node.now ≡ result.now ∷ [] }
    ensures class { has class.Name result.now.kind ≡ true }
{
    match form_of(node) {
        Form::Cname { name } => name,
        _ => unreachable!(),
    }
}

/// The sign of a constant that has one, and the constant behind it.
fn signed_part(node: &Tree) -> (Sign, &Tree)
    requires { node.now.kind ≡ kind.Csign }
    ensures kids { kids_of node.now ≡ result.1.now ∷ [] }
    ensures sign { operators.sign_of node.now.word ≡ result.0 }
    ensures class { has class.Bare result.1.now.kind ≡ true }
{
    match form_of(node) {
        Form::Csign { sign, constant } => (sign, constant),
        _ => unreachable!(),
    }
}
