//! The lines of an expression and of those below it.

ghost use Rattle.std.specs.Prelude.{◌≡◌, ◌≤◌, ◌+◌, ◌++◌, IfOk};
ghost use Rattle.pc_syntax.specs.WellFormed.{size_of, size_limit};
ghost use Rattle.pc_types.specs.Rows.{seen};
ghost use Rattle.pc_views.specs.Limit.{Agrees};
ghost use Rattle.pc_expr_view.specs.ToldText.{behind_node, node_told};

use crate::line::push_own;
use crate::told::{behind_own, level_below};
use pc_syntax::Tree;
use pc_types::{Operand, Types};
use std::alloc::{AllocError, Global};

/// Adds the lines of a node and of the expressions below it, with the types that are told for them, and answers the types behind
/// these. No line is begun where the text is over the limit.
pub(crate) fn push_lines<'a>(
    alloc: Global,
    text: &mut Vec<u8>,
    types: &Types,
    told: &'a [Option<Operand>],
    level: usize,
    node: &Tree,
) -> Result<&'a [Option<Operand>], AllocError>
    requires { level + size_of node.now ≤ size_limit }
    ensures rest { IfOk result (λ rest. rest.now ≡ behind_node node.now told.now) }
    ensures text { IfOk result (λ _. Agrees text.new.items (text.old.items ++ node_told (seen types.now) level node.now told.now)) }
{
    push_own(alloc, text, types, told, level, node)?;
    let below = level_below(node.kind(), level);
    let mut rest = behind_own(node.kind(), told);
    for kid in node.kid_slice() {
        rest = push_lines(alloc, text, types, rest, below, kid)?;
    }
    Ok(rest)
}
