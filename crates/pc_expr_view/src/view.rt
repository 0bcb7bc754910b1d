//! The view `expr`.

ghost use Rattle.std.specs.Prelude.{◌≡◌, ◌++◌, IfOk};
ghost use Rattle.std.specs.Option.{option_copied};
ghost use Rattle.pc_types.specs.Rows.{seen};
ghost use Rattle.pc_views.specs.Limit.{limited, Agrees};
ghost use Rattle.pc_decl.specs.ExprText.{expr_text};
ghost use Rattle.pc_expr_view.specs.PartTypes.{HaveTypes, types_at};
ghost use Rattle.pc_expr_view.specs.ToldText.{place_told, text_told};

use crate::lines::push_lines;
use crate::told::is_expression;
use pc_syntax::{Path, Tree};
use pc_types::{Operand, Types};
use pc_views::limited;
use std::alloc::{AllocError, Global};

/// The text of the view `expr` of a place of a program: a line for the expression there and one for each expression below it, in
/// preorder, each a level deeper than the one around it: its kind, its word and its type, from the types of these expressions, by
/// their numbers, in the same order (`told`). One line where there is no such place, or no expression. A text of more than 10,000,000
/// bytes is the one line `view too large` instead. Fails for want of memory only. Work: in proportion to the nodes of the expression
/// and to the text up to that limit.
pub fn expr_view(
    alloc: Global,
    tree: &Tree,
    place: &Path,
    types: &Types,
    told: &[Option<Operand>],
) -> Result<Vec<u8>, AllocError>
    ensures { IfOk result (λ text. HaveTypes (seen types.now) told.now (types_at tree.now place.now) → text.items ≡ limited (expr_text tree.now place.now)) }
{
    let mut text = Vec::new(alloc);
    push_found(alloc, &mut text, types, told, tree.at(place))?;
    limited(alloc, text)
}

/// Adds the text for the node at the place, if there is one.
fn push_found(
    alloc: Global,
    text: &mut Vec<u8>,
    types: &Types,
    told: &[Option<Operand>],
    found: Option<&Tree>,
) -> Result<(), AllocError>
    ensures { IfOk result (λ _. Agrees text.new.items (text.old.items ++ text_told (seen types.now) told.now (option_copied found.entry))) }
{
    match found {
        Some(node) => {
            push_place(alloc, text, types, told, node)?;
            Ok(())
        }
        None => {
            text.extend_from_slice(b"no such place\n")?;
            Ok(())
        }
    }
}

/// Adds the text for the node at the place.
fn push_place(
    alloc: Global,
    text: &mut Vec<u8>,
    types: &Types,
    told: &[Option<Operand>],
    node: &Tree,
) -> Result<(), AllocError>
    ensures { IfOk result (λ _. Agrees text.new.items (text.old.items ++ place_told (seen types.now) told.now node.now)) }
{
    if is_expression(node.kind()) {
        push_lines(alloc, text, types, told, 0, node)?;
        Ok(())
    } else {
        text.extend_from_slice(b"not an expression\n")?;
        Ok(())
    }
}
