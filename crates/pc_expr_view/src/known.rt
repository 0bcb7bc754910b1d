//! What is shown of a type by its number.

ghost use Rattle.std.specs.Prelude.{◌≡◌, ◌++◌, IfOk};
ghost use Rattle.pc_types.specs.Rows.{seen};
ghost use Rattle.pc_types.specs.Table.{shape_at, numbered};
ghost use Rattle.pc_views.specs.Limit.{Agrees};
ghost use Rattle.pc_decl.specs.TypeAt.{structure_of};
ghost use Rattle.pc_decl.specs.TypeText.{known_or};
ghost use Rattle.pc_decl.specs.ExprText.{without_structure};
ghost use Rattle.pc_expr_view.specs.ToldText.{type_told, has_structure, form_has_structure};

use crate::words::is_nil;
use pc_decl::push_operand;
use pc_syntax::Tree;
use pc_types::{Form, Operand, TypeId, Types};
use std::alloc::{AllocError, Global};

/// Adds what is shown of the type of a node, and stops where the text is over the limit of a view's text.
pub(crate) fn push_type_told(
    alloc: Global,
    text: &mut Vec<u8>,
    types: &Types,
    told: Option<Operand>,
    node: &Tree,
) -> Result<(), AllocError>
    ensures { IfOk result (λ _. Agrees text.new.items (text.old.items ++ type_told (seen types.now) node.now.kind node.now.kids told)) }
{
    match told {
        Some(operand) => {
            push_structure(alloc, text, types, operand, node)?;
            Ok(())
        }
        None => {
            push_without_structure(text, node)?;
            Ok(())
        }
    }
}

/// Adds the text of a type, or what is shown of the node where the type has no structure.
#[tactic(auto, using(crate::proofs::Structured::structured))]
fn push_structure(
    alloc: Global,
    text: &mut Vec<u8>,
    types: &Types,
    operand: Operand,
    node: &Tree,
) -> Result<(), AllocError>
    ensures { IfOk result (λ _. Agrees text.new.items (text.old.items ++ known_or (without_structure node.now.kind node.now.kids) (structure_of (shape_at (seen types.now) operand)))) }
{
    if has_structure(types, operand) {
        push_operand(alloc, text, types, operand)?;
        Ok(())
    } else {
        push_without_structure(text, node)?;
        Ok(())
    }
}

/// Adds what is shown of a node whose type has no structure: `nil`, or a question mark.
fn push_without_structure(text: &mut Vec<u8>, node: &Tree) -> Result<(), AllocError>
    ensures { IfOk result (λ _. text.new.items ≡ text.old.items ++ without_structure node.now.kind node.now.kids) }
{
    if is_nil(node) {
        text.extend_from_slice(b"nil")?;
    } else {
        text.extend_from_slice(b"?")?;
    }
    Ok(())
}

/// Whether a type has a structure: all but that of `nil` and that of a set constructor without members.
fn has_structure(types: &Types, operand: Operand) -> bool
    ensures { result ≡ has_structure (shape_at (seen types.now) operand) }
{
    match operand {
        Operand::Id(id) => is_structured(types, id),
        Operand::Text(_) => true,
        Operand::Members(_) => true,
        Operand::NoMembers => false,
    }
}

/// Whether the type with this number has a structure.
#[tactic(auto, using(crate::proofs::Structured::formed))]
fn is_structured(types: &Types, id: TypeId) -> bool
    ensures { result ≡ has_structure (numbered (seen types.now).shapes id) }
{
    match types.form(id) {
        Some(form) => form_has_structure(form),
        None => false,
    }
}

/// Whether a type of this form has a structure.
fn form_has_structure(form: &Form) -> bool
    ensures { result ≡ form_has_structure form.now }
{
    match form {
        Form::Nil => false,
        Form::Members(None) => false,
        _ => true,
    }
}
