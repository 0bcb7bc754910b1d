//! The text of a type by its number.

ghost use Rattle.std.specs.Prelude.{◌++◌, IfOk};
ghost use Rattle.pc_views.specs.Limit.{Agrees};
ghost use Rattle.pc_types.specs.Expanded.{expanded, expanded_fields};
ghost use Rattle.pc_types.specs.Rows.{seen};
ghost use Rattle.pc_types.specs.Table.{shape_at, numbered, fields_from, FieldsThere};
ghost use Rattle.pc_decl.specs.TypeText.{type_text, fields_text};

use crate::operand_pieces::{push_bounds, push_string_type};
use crate::type_pieces::{
    push_behind_field, push_behind_packed, push_field_name, push_named, push_pointer,
};
use pc_syntax::Word;
use pc_types::{Form, Operand, TypeId, Types};
use pc_views::text_limit;
use std::alloc::{AllocError, Global};

/// Adds the text of a type by its number, and stops where the text is over the limit of a view's text: then it is part of a text
/// that is over the limit too.
pub fn push_operand(
    alloc: Global,
    text: &mut Vec<u8>,
    types: &Types,
    operand: Operand,
) -> Result<(), AllocError>
    ensures { IfOk result (λ _. Agrees text.new.items (text.old.items ++ type_text (expanded (shape_at (seen types.now) operand)))) }
{
    match operand {
        Operand::Id(id) => {
            push_numbered(alloc, text, types, id)?;
            Ok(())
        }
        Operand::Text(size) => {
            push_string_type(alloc, text, size)?;
            Ok(())
        }
        Operand::Members(base) => {
            push_behind_packed(text, false, b"set of ")?;
            push_numbered(alloc, text, types, base)?;
            Ok(())
        }
        Operand::NoMembers => {
            text.extend_from_slice(b"?")?;
            Ok(())
        }
    }
}

/// Adds the text of the type with this number, and stops where the text is over the limit.
#[cycle(numbered)]
fn push_numbered(
    alloc: Global,
    text: &mut Vec<u8>,
    types: &Types,
    id: TypeId,
) -> Result<(), AllocError>
    ensures { IfOk result (λ _. Agrees text.new.items (text.old.items ++ type_text (expanded (numbered (seen types.now).shapes id)))) }
{
    if text.len() > text_limit() {
        return Ok(());
    }
    let Some(form) = types.form(id) else {
        text.extend_from_slice(b"?")?;
        return Ok(());
    };
    match form {
        Form::Integer => {
            text.extend_from_slice(b"integer")?;
            Ok(())
        }
        Form::Boolean => {
            text.extend_from_slice(b"boolean")?;
            Ok(())
        }
        Form::Char => {
            text.extend_from_slice(b"char")?;
            Ok(())
        }
        Form::Nil => {
            text.extend_from_slice(b"?")?;
            Ok(())
        }
        Form::Named(names) => {
            push_named(text, names.as_slice())?;
            Ok(())
        }
        Form::Subrange(host, low, high) => {
            push_bounds(alloc, text, types, *host, *low, *high)?;
            Ok(())
        }
        Form::Array(packed, index, element) => {
            push_behind_packed(text, *packed, b"array [")?;
            push_numbered(alloc, text, types, *index)?;
            text.extend_from_slice(b"] of ")?;
            push_numbered(alloc, text, types, *element)?;
            Ok(())
        }
        Form::Record(packed, fields) => {
            push_behind_packed(text, *packed, b"record ")?;
            push_numbered_fields(alloc, text, types, id, fields.as_slice())?;
            text.extend_from_slice(b"end")?;
            Ok(())
        }
        Form::Set(packed, base) => {
            push_behind_packed(text, *packed, b"set of ")?;
            push_numbered(alloc, text, types, *base)?;
            Ok(())
        }
        Form::Members(Some(base)) => {
            push_behind_packed(text, false, b"set of ")?;
            push_numbered(alloc, text, types, *base)?;
            Ok(())
        }
        Form::Members(None) => {
            text.extend_from_slice(b"?")?;
            Ok(())
        }
        Form::Text(size) => {
            push_string_type(alloc, text, *size)?;
            Ok(())
        }
        Form::Pointer(domain) => {
            push_pointer(text, types.domain_name(*domain))?;
            Ok(())
        }
    }
}

/// Adds the fields, each with its type, and stops where the text is over the limit; their types stand before the number.
#[cycle(numbered)]
fn push_numbered_fields(
    alloc: Global,
    text: &mut Vec<u8>,
    types: &Types,
    id: TypeId,
    fields: &[(Word, TypeId)],
) -> Result<(), AllocError>
    requires { FieldsThere id.0 fields.now }
    ensures { IfOk result (λ _. Agrees text.new.items (text.old.items ++ fields_text (expanded_fields (fields_from (seen types.now).shapes fields.now)))) }
{
    let mut left = fields.len();
    for (name, field) in fields {
        if text.len() > text_limit() {
            return Ok(());
        }
        left -= 1;
        push_field_name(text, name.bytes())?;
        push_numbered(alloc, text, types, *field)?;
        push_behind_field(text, left)?;
    }
    Ok(())
}
