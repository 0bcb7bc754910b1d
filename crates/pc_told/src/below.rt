//! An expression and those below it.

ghost use Rattle.std.specs.Prelude.{◌≡◌, ◌<◌, length, true, IfOk, OnOk};
ghost use Rattle.pc_syntax.specs.Classes.{is_operand};
ghost use Rattle.pc_told.specs.Contexts.{meant_role};
ghost use Rattle.pc_told.specs.Parts.{is_part};
ghost use Rattle.pc_told.specs.Tells.{TellsNode, TellsOwn, Typing};

use crate::roles::{Context, Role, Wanted, role_of, type_in};
use crate::wanted::wanted_by;
use pc_bodies::{Body, Going, expression};
use pc_forms::Expression;
use pc_syntax::{Class, Tree};
use pc_types::Operand;
use std::alloc::{AllocError, Global};

/// Tells the types of the expressions at and below a node of an expression, given where it stands: as a kid there, which has this many
/// before it, of a node that wants this of its arguments. Only memory can fail.
pub(crate) fn tell(
    alloc: Global,
    body: &Body,
    going: &mut Going,
    context: Context,
    wanted: Wanted,
    index: usize,
    node: &Tree,
    told: &mut Vec<Option<Operand>>,
) -> Result<(), AllocError>
    requires block { body.now.block.0 < length body.now.names.now.chains }
    requires part { is_part node.now.kind ≡ true }
    ensures { OnOk result (TellsNode body.now going.old going.new told.old.items told.new.items context wanted index node.now) }
{
    tell_own(
        alloc,
        body,
        going,
        role_of(body.signatures, context, index),
        node,
        told,
    )?;
    let own = wanted_by(body, going, node)?;
    let below = Context {
        kind: node.kind(),
        outer: context.kind,
        wanted,
    };
    for (i, kid) in node.kid_slice().iter().enumerate() {
        tell(alloc, body, going, below, own, i, kid, told)?;
    }
    Ok(())
}

/// Tells the type of a node by itself in a role, if it is an expression. Only memory can fail.
fn tell_own(
    alloc: Global,
    body: &Body,
    going: &mut Going,
    role: Role,
    node: &Tree,
    told: &mut Vec<Option<Operand>>,
) -> Result<(), AllocError>
    requires { body.now.block.0 < length body.now.names.now.chains }
    ensures { OnOk result (TellsOwn body.now going.old going.new told.old.items told.new.items (meant_role role) node.now) }
{
    if Class::Operand.has(node.kind()) {
        let of = type_of(alloc, body, going, role, node)?;
        told.push(of)?;
        Ok(())
    } else {
        Ok(())
    }
}

/// The type of an expression in a role; a value with a width and the ends of a span have none. Only memory can fail.
fn type_of(
    alloc: Global,
    body: &Body,
    going: &mut Going,
    role: Role,
    node: &Tree,
) -> Result<Option<Operand>, AllocError>
    requires block { body.now.block.0 < length body.now.names.now.chains }
    requires operand { is_operand node.now.kind ≡ true }
    ensures { IfOk result (λ x. Typing body.now going.old going.new (meant_role role) node.now x) }
{
    match Expression::of(node) {
        Some(whole) => {
            let found = expression(alloc, body, going, &whole)?;
            Ok(type_in(role, &found))
        }
        None => Ok(None),
    }
}
