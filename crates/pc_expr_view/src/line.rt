//! The line of an expression.

ghost use Rattle.std.specs.Prelude.{◌≡◌, ◌++◌, codes, IfOk};
ghost use Rattle.pc_types.specs.Rows.{seen};
ghost use Rattle.pc_views.specs.Limit.{Agrees};
ghost use Rattle.pc_decl.specs.ExprText.{indentation, behind_space};
ghost use Rattle.pc_expr_view.specs.ToldText.{first_told, part_told, line_told};

use crate::known::push_type_told;
use crate::told::{first_told, is_expression};
use crate::words::word_shown;
use pc_syntax::Tree;
use pc_types::{Operand, Types};
use pc_views::text_limit;
use std::alloc::{AllocError, Global};

/// Adds the line of a node with the first type that is told, and nothing where it is no expression or the text is over the limit.
#[tactic(auto, using(crate::proofs::Pieces::stopped))]
pub(crate) fn push_own(
    alloc: Global,
    text: &mut Vec<u8>,
    types: &Types,
    told: &[Option<Operand>],
    level: usize,
    node: &Tree,
) -> Result<(), AllocError>
    ensures { IfOk result (λ _. Agrees text.new.items (text.old.items ++ line_told (seen types.now) level node.now.kind node.now.word node.now.kids told.now)) }
{
    if text.len() > text_limit() {
        return Ok(());
    }
    if is_expression(node.kind()) {
        push_line(alloc, text, types, first_told(told), level, node)?;
    }
    Ok(())
}

/// Adds the line of an expression.
fn push_line(
    alloc: Global,
    text: &mut Vec<u8>,
    types: &Types,
    told: Option<Operand>,
    level: usize,
    node: &Tree,
) -> Result<(), AllocError>
    ensures { IfOk result (λ _. Agrees text.new.items (text.old.items ++ (indentation level ++ part_told (seen types.now) node.now.kind node.now.word node.now.kids told ++ codes "\n"))) }
{
    push_indentation(text, level)?;
    push_part(alloc, text, types, told, node)?;
    text.push(b'\n')?;
    Ok(())
}

/// Adds two spaces a level.
fn push_indentation(text: &mut Vec<u8>, level: usize) -> Result<(), AllocError>
    ensures { IfOk result (λ _. text.new.items ≡ text.old.items ++ indentation level) }
{
    for done in 0..level {
        text.extend_from_slice(b"  ")?;
    }
    Ok(())
}

/// Adds the kind of an expression, its word and its type.
fn push_part(
    alloc: Global,
    text: &mut Vec<u8>,
    types: &Types,
    told: Option<Operand>,
    node: &Tree,
) -> Result<(), AllocError>
    ensures { IfOk result (λ _. Agrees text.new.items (text.old.items ++ part_told (seen types.now) node.now.kind node.now.word node.now.kids told)) }
{
    text.extend_from_slice(node.kind().name())?;
    push_behind_space(text, word_shown(node))?;
    text.push(b' ')?;
    push_type_told(alloc, text, types, told, node)?;
    Ok(())
}

/// Adds a word behind a space, where it isn't empty.
fn push_behind_space(text: &mut Vec<u8>, word: &[u8]) -> Result<(), AllocError>
    ensures { IfOk result (λ _. text.new.items ≡ text.old.items ++ behind_space word.now) }
{
    if !word.is_empty() {
        text.push(b' ')?;
        text.extend_from_slice(word)?;
    }
    Ok(())
}
