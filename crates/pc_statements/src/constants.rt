//! Constants in a statement part (ISO 7185, 6.3).

ghost use Rattle.std.specs.Prelude.{◌≡◌, ◌<◌, length, true, IfOk};
ghost use Rattle.pc_syntax.specs.Classes.{has};
ghost use Rattle.pc_syntax.specs.declared.class.Class.TheVariants as class;
ghost use Rattle.pc_syntax.specs.declared.kind.Kind.TheVariants as kind;
ghost use Rattle.pc_forms.specs.Form.{form_of};
ghost use Rattle.pc_forms.specs.declared.form.Form.TheVariants as form;
ghost use Rattle.pc_bodies.specs.Resolved.{Resolves};

use pc_bodies::{Body, Going, used_name};
use pc_expression_rules::{constant_name, hole, number_constant, signed_constant, string_constant};
use pc_facts::Facts;
use pc_forms::{Form, Sign, form_of};
use pc_syntax::{Kind, Tree};
use std::alloc::{AllocError, Global};

/// What is found at a constant; the characters of a string become the last ones of the texts. Only memory can fail.
pub(crate) fn constant(
    alloc: Global,
    body: &Body,
    going: &mut Going,
    node: &Tree,
) -> Result<Facts, AllocError>
    requires block { body.now.block.0 < length body.now.names.now.chains }
    requires constant { has class.Constant node.now.kind ≡ true }
    ensures { IfOk result (λ f. Resolves body.now going.old going.new node.now f) }
{
    match node.kind() {
        Kind::Cstring => {
            let found = string_constant(alloc, body.types, &mut going.texts, node.word())?;
            Ok(found)
        }
        Kind::Csign => {
            let (sign, bare) = signed_part(node);
            let value = bare_constant(alloc, body, going, bare)?;
            let found = signed_constant(alloc, body.types, sign, value)?;
            Ok(found)
        }
        _ => {
            let found = bare_constant(alloc, body, going, node)?;
            Ok(found)
        }
    }
}

/// The same of a constant without a sign that is no text.
fn bare_constant(
    alloc: Global,
    body: &Body,
    going: &mut Going,
    node: &Tree,
) -> Result<Facts, AllocError>
    requires block { body.now.block.0 < length body.now.names.now.chains }
    requires constant { has class.Bare node.now.kind ≡ true }
    ensures { IfOk result (λ f. Resolves body.now going.old going.new node.now f) }
{
    match node.kind() {
        Kind::Cnumber => {
            let found = number_constant(alloc, body.types, node.word())?;
            Ok(found)
        }
        Kind::Cname => {
            let name = name_part(node);
            let named = used_name(body, going, name)?;
            let found = constant_name(alloc, body.types, name.word(), named)?;
            Ok(found)
        }
        Kind::Hole(sort) => Ok(hole(alloc, sort)),
        _ => unreachable!(),
    }
}

/// The name of a constant that is one.
fn name_part(node: &Tree) -> &Tree
    requires { node.now.kind ≡ kind.Cname }
    ensures { form.Cname result.now ≡ form_of node.now }
{
    match form_of(node) {
        Form::Cname { name } => name,
        _ => unreachable!(),
    }
}

/// The sign of a constant that has one, and the constant behind it.
fn signed_part(node: &Tree) -> (Sign, &Tree)
    requires { node.now.kind ≡ kind.Csign }
    ensures { form.Csign result.0 result.1.now ≡ form_of node.now }
{
    match form_of(node) {
        Form::Csign { sign, constant } => (sign, constant),
        _ => unreachable!(),
    }
}
