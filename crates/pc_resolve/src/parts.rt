//! The block of a routine.

ghost use Rattle.std.specs.Prelude.{◌≡◌, true, IfNone};
ghost use Rattle.std.specs.Option.{ForSome};
ghost use Rattle.pc_syntax.specs.declared.kind.Kind.TheVariants as kind;
ghost use Rattle.pc_scope.specs.Headings.{is_routine_kind};
ghost use Rattle.pc_rules.specs.Errors.{is_program};
ghost use Rattle.pc_resolve.specs.Parts.{IsRoutinePart, HasNoBlock};

use pc_forms::{Form, form_of};
use pc_syntax::{Kind, Tree};

/// The block of a routine and which kid it is, from 1; none where a hole or a directive stands in its place.
pub(crate) fn block_part(node: &Tree) -> Option<(u32, &Tree)>
    requires { is_routine_kind node.now.kind ≡ true }
    ensures part { ForSome result (λ p. IsRoutinePart node.now p.0 p.1.now) }
    ensures none { IfNone result (HasNoBlock node.now) }
{
    match form_of(node) {
        Form::Procedure { block, .. } => if_block(3, block),
        Form::Function { block, .. } => if_block(4, block),
        Form::Funbody { block, .. } => if_block(2, block),
        _ => unreachable!(),
    }
}

/// This kid, if it is a block.
fn if_block(number: u32, kid: &Tree) -> Option<(u32, &Tree)>
    ensures part { ForSome result (λ p. (p.0 ≡ number) × (p.1.now ≡ kid.now) × (kid.now.kind ≡ kind.Block)) }
    ensures none { IfNone result (kid.now.kind ≡ kind.Block → ⊥) }
{
    match kid.kind() {
        Kind::Block => Some((number, kid)),
        _ => None,
    }
}

/// Whether a node of this kind is a routine.
pub(crate) fn is_routine(kind: Kind) -> bool
    ensures { result ≡ is_routine_kind kind }
{
    matches!(kind, Kind::Procedure | Kind::Function | Kind::Funbody)
}

/// The block of a program and which kid it is, from 1; none where a hole stands in its place.
pub(crate) fn program_block(node: &Tree) -> Option<(u32, &Tree)>
    requires { is_program node.now.kind ≡ true }
    ensures part { ForSome result (λ p. IsRoutinePart node.now p.0 p.1.now) }
    ensures none { IfNone result (HasNoBlock node.now) }
{
    match form_of(node) {
        Form::Program { block, .. } => if_block(3, block),
        _ => unreachable!(),
    }
}
