//! The text of a type.

ghost use Rattle.std.specs.Prelude.{◌++◌, option_map, IfOk};
ghost use Rattle.pc_views.specs.Limit.{Agrees};
ghost use Rattle.pc_decl.specs.TypeText.{type_text, fields_text, known_or};
ghost use Rattle.pc_decl.specs.Structures.{structure, field_structures};

use crate::type_pieces::{
    push_behind_field, push_behind_packed, push_field_name, push_named, push_pointer, push_range,
};
use pc_heads::Ty;
use pc_syntax::Word;
use pc_views::text_limit;
use std::alloc::{AllocError, Global};

/// Adds the text of a type, and stops where the text is over the limit of a view's text: then it is part of a text that is over the
/// limit too.
#[cycle(texts)]
pub fn push_type(alloc: Global, text: &mut Vec<u8>, ty: &Ty) -> Result<(), AllocError>
    ensures { IfOk result (λ _. Agrees text.new.items (text.old.items ++ type_text (structure ty.now))) }
{
    if text.len() > text_limit() {
        return Ok(());
    }
    match ty {
        Ty::Int => {
            text.extend_from_slice(b"integer")?;
            Ok(())
        }
        Ty::Truth => {
            text.extend_from_slice(b"boolean")?;
            Ok(())
        }
        Ty::Letter => {
            text.extend_from_slice(b"char")?;
            Ok(())
        }
        Ty::Named(names) => {
            push_named(text, names.as_slice())?;
            Ok(())
        }
        Ty::Sub(host, low, high) => {
            push_range(alloc, text, host.get(), *low, *high)?;
            Ok(())
        }
        Ty::Array(packed, index, element) => {
            push_behind_packed(text, *packed, b"array [")?;
            push_type(alloc, text, index.get())?;
            text.extend_from_slice(b"] of ")?;
            push_type(alloc, text, element.get())?;
            Ok(())
        }
        Ty::Record(packed, fields) => {
            push_behind_packed(text, *packed, b"record ")?;
            push_fields(alloc, text, fields.as_slice())?;
            text.extend_from_slice(b"end")?;
            Ok(())
        }
        Ty::Set(packed, base) => {
            push_behind_packed(text, *packed, b"set of ")?;
            push_type(alloc, text, base.get())?;
            Ok(())
        }
        Ty::Pointer(_, name) => {
            push_pointer(text, name.bytes())?;
            Ok(())
        }
    }
}

/// Adds the fields, each with its type, and stops where the text is over the limit.
#[cycle(texts)]
fn push_fields(alloc: Global, text: &mut Vec<u8>, fields: &[(Word, Ty)]) -> Result<(), AllocError>
    ensures { IfOk result (λ _. Agrees text.new.items (text.old.items ++ fields_text (field_structures fields.now))) }
{
    let mut left = fields.len();
    for (name, ty) in fields {
        if text.len() > text_limit() {
            return Ok(());
        }
        left -= 1;
        push_field_name(text, name.bytes())?;
        push_type(alloc, text, ty)?;
        push_behind_field(text, left)?;
    }
    Ok(())
}

/// Adds the text of a type, and `other` where it is unknown; it stops as `push_type` does.
pub fn push_known(
    alloc: Global,
    text: &mut Vec<u8>,
    other: &[u8],
    ty: Option<&Ty>,
) -> Result<(), AllocError>
    ensures { IfOk result (λ _. Agrees text.new.items (text.old.items ++ known_or other.now (option_map (λ t. structure t.now) ty.entry))) }
{
    match ty {
        Some(ty) => {
            push_type(alloc, text, ty)?;
            Ok(())
        }
        None => {
            text.extend_from_slice(other)?;
            Ok(())
        }
    }
}
