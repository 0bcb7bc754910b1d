//! The texts of constants.

ghost use Rattle.std.specs.Prelude.{◌≡◌, ◌++◌, ◌%◌, IfOk};
ghost use Rattle.std.specs.Fmt.{signed_decimal};
ghost use Rattle.pc_decl.specs.TypeText.{listed, name_with, character_text, truth_text, constant_text};
ghost use Rattle.pc_decl.specs.Structures.{structure};
ghost use Rattle.pc_decl.specs.Pieces.{comma};

use pc_heads::Ty;
use pc_syntax::Word;
use std::alloc::{AllocError, Global};

/// Adds the constant of the type that has this ordinal.
pub(crate) fn push_constant(
    alloc: Global,
    text: &mut Vec<u8>,
    ty: &Ty,
    ordinal: i64,
) -> Result<(), AllocError>
    ensures { IfOk result (λ _. text.new.items ≡ text.old.items ++ constant_text (structure ty.now) ordinal) }
{
    let number = ordinal.unsigned_abs();
    match ty {
        Ty::Truth => push_truth(text, number)?,
        Ty::Letter => push_character(text, (number % 256) as u8)?,
        Ty::Named(names) => push_name(text, names.as_slice(), number as usize)?,
        _ => push_decimal(alloc, text, ordinal)?,
    }
    Ok(())
}

/// Adds the number in decimal digits, with a `-` where it is below 0.
pub(crate) fn push_decimal(alloc: Global, text: &mut Vec<u8>, number: i64) -> Result<(), AllocError>
    ensures { IfOk result (λ _. text.new.items ≡ text.old.items ++ signed_decimal number) }
{
    let digits = format!(in alloc; "{number}")?;
    text.extend_from_slice(digits.as_bytes())?;
    Ok(())
}

/// Adds the truth value with this ordinal.
pub(crate) fn push_truth(text: &mut Vec<u8>, ordinal: u64) -> Result<(), AllocError>
    ensures { IfOk result (λ _. text.new.items ≡ text.old.items ++ truth_text ordinal) }
{
    if ordinal == 0 {
        text.extend_from_slice(b"false")?;
    } else {
        text.extend_from_slice(b"true")?;
    }
    Ok(())
}

/// Adds the character as a text of the language: an apostrophe is doubled.
pub(crate) fn push_character(text: &mut Vec<u8>, character: u8) -> Result<(), AllocError>
    ensures { IfOk result (λ _. text.new.items ≡ text.old.items ++ character_text character) }
{
    if character == b'\'' {
        text.extend_from_slice(b"''''")?;
    } else {
        text.push(b'\'')?;
        text.push(character)?;
        text.push(b'\'')?;
    }
    Ok(())
}

/// Adds the name with this number, from 0, if there is one.
#[tactic(auto, using(crate::proofs::Names::numbered))]
pub(crate) fn push_name(text: &mut Vec<u8>, names: &[Word], number: usize) -> Result<(), AllocError>
    ensures { IfOk result (λ _. text.new.items ≡ text.old.items ++ name_with number names.now) }
{
    if number < names.len() {
        text.extend_from_slice(names[number].bytes())?;
    }
    Ok(())
}

/// Adds the names with a comma between two.
pub(crate) fn push_listed(text: &mut Vec<u8>, names: &[Word]) -> Result<(), AllocError>
    ensures { IfOk result (λ _. text.new.items ≡ text.old.items ++ listed names.now) }
{
    let mut left = names.len();
    for name in names {
        left -= 1;
        push_listed_name(text, name.bytes(), left)?;
    }
    Ok(())
}

/// Adds a name, and a comma where some are left.
fn push_listed_name(text: &mut Vec<u8>, name: &[u8], left: usize) -> Result<(), AllocError>
    ensures { IfOk result (λ _. text.new.items ≡ text.old.items ++ (name.now ++ comma left)) }
{
    text.extend_from_slice(name)?;
    if left > 0 {
        text.extend_from_slice(b", ")?;
    }
    Ok(())
}
