//! The types that are told, one for each expression, in preorder.

ghost use Rattle.std.specs.Prelude.{◌≡◌, ◌<◌};
ghost use Rattle.pc_syntax.specs.WellFormed.{size_limit};
ghost use Rattle.pc_decl.specs.Nodes.{is_expression};
ghost use Rattle.pc_expr_view.specs.ToldText.{first_told, behind_told, behind_own, level_below};

use pc_syntax::{Kind, Sort};
use pc_types::Operand;

/// Whether a node of this kind is of the sort expression, the hole too.
pub(crate) fn is_expression(kind: Kind) -> bool
    ensures { result ≡ is_expression kind }
{
    matches!(kind.sort(), Some(Sort::Expression))
}

/// The first of the types that are told; unknown where there is none.
pub(crate) fn first_told(told: &[Option<Operand>]) -> Option<Operand>
    ensures { result ≡ first_told told.now }
{
    match told {
        [first, ..] => *first,
        [] => None,
    }
}

/// The types that are told behind the first.
fn behind_told(told: &[Option<Operand>]) -> &[Option<Operand>]
    ensures { result.now ≡ behind_told told.now }
{
    match told {
        [_, rest @ ..] => rest,
        [] => told,
    }
}

/// The types that are told behind that of a node of this kind, if it is an expression.
pub(crate) fn behind_own(kind: Kind, told: &[Option<Operand>]) -> &[Option<Operand>]
    ensures { result.now ≡ behind_own kind told.now }
{
    if is_expression(kind) {
        behind_told(told)
    } else {
        told
    }
}

/// The level of what is below a node of this kind.
pub(crate) fn level_below(kind: Kind, level: usize) -> usize
    requires { level < size_limit }
    ensures { result ≡ level_below kind level }
{
    if is_expression(kind) {
        level + 1
    } else {
        level
    }
}
