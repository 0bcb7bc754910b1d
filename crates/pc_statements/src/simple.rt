//! Statements without statements in them (ISO 7185, 6.8.2).

ghost use Rattle.std.specs.Prelude.{◌≡◌, ◌<◌, ◌∷◌, [], ℕ, List, length, true, IfOk};
ghost use Rattle.pc_syntax.specs.Classes.{has};
ghost use Rattle.pc_syntax.specs.declared.class.Class.TheVariants as class;
ghost use Rattle.pc_syntax.specs.declared.kind.Kind.TheVariants as kind;
ghost use Rattle.pc_environment.specs.Sight.{is_body};
ghost use Rattle.pc_statements.specs.Walked.{WalksKind};

use crate::noting::add_variable;
use pc_bodies::{Body, Going, arguments, expression, procedure_signature, used_name};
use pc_call_rules::procedure;
use pc_facts::Facts;
use pc_forms::Expression;
use pc_name_rules::{Allowed, add_name_entries};
use pc_statement_rules::assignment;
use pc_syntax::Tree;
use std::alloc::{AllocError, Global};

/// What is found at an assignment, given its target and its value. Only memory can fail.
pub(crate) fn assign(
    alloc: Global,
    body: &Body,
    going: &mut Going,
    target: &Expression,
    value: &Expression,
) -> Result<Facts, AllocError>
    requires block { body.now.block.0 < length body.now.names.now.chains }
    requires target { is_body target.now.kind ≡ true }
    ensures { IfOk result (λ f. (o : List (ℕ × ℕ)) → WalksKind body.now going.old going.new o o kind.Assign (target.now ∷ value.now ∷ []) f) }
{
    let target = expression(alloc, body, going, target)?;
    let value = expression(alloc, body, going, value)?;
    let variable = target.variable;
    let found = assignment(alloc, body.types, target, value)?;
    add_variable(&mut going.touched, variable)?;
    Ok(found)
}

/// What is found at a procedure statement, given its name and its arguments. Only memory can fail.
pub(crate) fn called(
    alloc: Global,
    body: &Body,
    going: &mut Going,
    name: &Tree,
    args: &Tree,
) -> Result<Facts, AllocError>
    requires block { body.now.block.0 < length body.now.names.now.chains }
    requires name { has class.Name name.now.kind ≡ true }
    requires args { has class.Args args.now.kind ≡ true }
    ensures { IfOk result (λ f. (o : List (ℕ × ℕ)) → WalksKind body.now going.old going.new o o kind.Proc (name.now ∷ args.now ∷ []) f) }
{
    let named = used_name(body, going, name)?;
    let args = arguments(alloc, body, going, args)?;
    let mut entries = Vec::new(alloc);
    add_name_entries(alloc, &mut entries, name.word(), named, Allowed::Procedure)?;
    let signature = procedure_signature(body.signatures, named.sighting);
    let found = procedure(
        alloc,
        body.types,
        named,
        entries,
        signature,
        args,
        &mut going.touched,
    )?;
    Ok(found)
}
