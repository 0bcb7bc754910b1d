//! The way down from a statement part to a place in it.

ghost use Rattle.std.specs.Prelude.{◌≡◌, ◌<◌, length, true, OnOk, []};
ghost use Rattle.pc_environment.specs.Sight.{is_body};
ghost use Rattle.pc_growth.specs.Grows.{Begins};
ghost use Rattle.pc_told.specs.Tells.{TellsDown};

use crate::below::tell;
use crate::opening::open_before;
use crate::roles::{Context, Wanted};
use crate::wanted::wanted_by;
use pc_bodies::{Body, Going};
use pc_syntax::{Class, Tree};
use pc_types::Operand;
use std::alloc::{AllocError, Global};

/// Tells the types of the expression at the end of a way down from a node of a statement part, and of those below it, given where that
/// node stands: as a kid there, which has this many before it, of a node that wants this of its arguments. Only memory can fail.
pub(crate) fn tell_down(
    alloc: Global,
    body: &Body,
    going: &mut Going,
    context: Context,
    wanted: Wanted,
    index: usize,
    node: &Tree,
    way: &[u32],
    told: &mut Vec<Option<Operand>>,
) -> Result<(), AllocError>
    requires block { body.now.block.0 < length body.now.names.now.chains }
    requires body { is_body node.now.kind ≡ true }
    ensures told { OnOk result (TellsDown body.now going.old told.old.items told.new.items context wanted index node.now way.now) }
    ensures texts { OnOk result (Begins going.old.texts.items going.new.texts.items) }
{
    let Some((number, rest)) = way.split_first() else {
        tell_end(alloc, body, going, context, wanted, index, node, told)?;
        return Ok(());
    };
    let Some(kid) = node.kid(*number) else {
        return Ok(());
    };
    let before = *number as usize - 1;
    let own = wanted_by(body, going, node)?;
    open_before(alloc, body, going, node, before)?;
    let below = Context {
        kind: node.kind(),
        outer: context.kind,
        wanted,
    };
    tell_down(alloc, body, going, below, own, before, kid, rest, told)?;
    Ok(())
}

/// The same where the way ends: nothing, if there stands no expression. Only memory can fail.
fn tell_end(
    alloc: Global,
    body: &Body,
    going: &mut Going,
    context: Context,
    wanted: Wanted,
    index: usize,
    node: &Tree,
    told: &mut Vec<Option<Operand>>,
) -> Result<(), AllocError>
    requires { body.now.block.0 < length body.now.names.now.chains }
    ensures told { OnOk result (TellsDown body.now going.old told.old.items told.new.items context wanted index node.now []) }
    ensures texts { OnOk result (Begins going.old.texts.items going.new.texts.items) }
{
    if Class::Operand.has(node.kind()) {
        tell(alloc, body, going, context, wanted, index, node, told)?;
        Ok(())
    } else {
        Ok(())
    }
}
