//! The pieces of the texts of types by their numbers.

ghost use Rattle.std.specs.Prelude.{◌≡◌, ◌++◌, codes, IfOk};
ghost use Rattle.pc_types.specs.Expanded.{expanded};
ghost use Rattle.pc_types.specs.Rows.{seen};
ghost use Rattle.pc_types.specs.Shapes.{TextType};
ghost use Rattle.pc_types.specs.Table.{numbered};
ghost use Rattle.pc_decl.specs.FormText.{form_constant};
ghost use Rattle.pc_decl.specs.TypeText.{constant_text, type_text};

use crate::constant_text::{push_character, push_decimal, push_name, push_truth};
use pc_types::{Form, TypeId, Types};
use std::alloc::{AllocError, Global};

/// Adds the type of a text of so many characters.
pub(crate) fn push_string_type(
    alloc: Global,
    text: &mut Vec<u8>,
    size: u32,
) -> Result<(), AllocError>
    ensures { IfOk result (λ _. text.new.items ≡ text.old.items ++ type_text (expanded (TextType size))) }
{
    text.extend_from_slice(b"packed array [")?;
    push_decimal(alloc, text, 1)?;
    text.extend_from_slice(b"..")?;
    push_decimal(alloc, text, i64::from(size))?;
    text.extend_from_slice(b"] of char")?;
    Ok(())
}

/// Adds the bounds of a subrange of the type with this number.
pub(crate) fn push_bounds(
    alloc: Global,
    text: &mut Vec<u8>,
    types: &Types,
    host: TypeId,
    low: i64,
    high: i64,
) -> Result<(), AllocError>
    ensures { IfOk result (λ _. text.new.items ≡ text.old.items ++ (constant_text (expanded (numbered (seen types.now).shapes host)) low ++ codes ".." ++ constant_text (expanded (numbered (seen types.now).shapes host)) high)) }
{
    push_ordinal(alloc, text, types, host, low)?;
    text.extend_from_slice(b"..")?;
    push_ordinal(alloc, text, types, host, high)?;
    Ok(())
}

/// Adds the constant that has this ordinal, of the type with this number.
#[tactic(auto, using(crate::proofs::Operands::constants))]
fn push_ordinal(
    alloc: Global,
    text: &mut Vec<u8>,
    types: &Types,
    id: TypeId,
    ordinal: i64,
) -> Result<(), AllocError>
    ensures { IfOk result (λ _. text.new.items ≡ text.old.items ++ constant_text (expanded (numbered (seen types.now).shapes id)) ordinal) }
{
    match types.form(id) {
        Some(form) => push_constant_of(alloc, text, form, ordinal)?,
        None => push_decimal(alloc, text, ordinal)?,
    }
    Ok(())
}

/// Adds the constant that has this ordinal, of a type of this form.
fn push_constant_of(
    alloc: Global,
    text: &mut Vec<u8>,
    form: &Form,
    ordinal: i64,
) -> Result<(), AllocError>
    ensures { IfOk result (λ _. text.new.items ≡ text.old.items ++ form_constant form.now ordinal) }
{
    let number = ordinal.unsigned_abs();
    match form {
        Form::Boolean => push_truth(text, number)?,
        Form::Char => push_character(text, (number % 256) as u8)?,
        Form::Named(names) => push_name(text, names.as_slice(), number as usize)?,
        _ => push_decimal(alloc, text, ordinal)?,
    }
    Ok(())
}
