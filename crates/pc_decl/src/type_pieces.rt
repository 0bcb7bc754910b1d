//! The pieces of the texts of types.

ghost use Rattle.std.specs.Prelude.{◌≡◌, ◌++◌, codes, IfOk};
ghost use Rattle.pc_decl.specs.TypeText.{listed, constant_text, packed_text};
ghost use Rattle.pc_decl.specs.Structures.{structure};
ghost use Rattle.pc_decl.specs.Pieces.{behind_field};

use crate::constant_text::{push_constant, push_listed};
use pc_heads::Ty;
use pc_syntax::Word;
use std::alloc::{AllocError, Global};

/// Adds the name of a field, before its type.
pub(crate) fn push_field_name(text: &mut Vec<u8>, name: &[u8]) -> Result<(), AllocError>
    ensures { IfOk result (λ _. text.new.items ≡ text.old.items ++ (name.now ++ codes ": ")) }
{
    text.extend_from_slice(name)?;
    text.extend_from_slice(b": ")?;
    Ok(())
}

/// Adds what stands behind the type of a field, where so many fields are left.
pub(crate) fn push_behind_field(text: &mut Vec<u8>, left: usize) -> Result<(), AllocError>
    ensures { IfOk result (λ _. text.new.items ≡ text.old.items ++ behind_field left) }
{
    if left == 0 {
        text.push(b' ')?;
    } else {
        text.extend_from_slice(b"; ")?;
    }
    Ok(())
}

/// Adds the word, behind `packed` where the type is packed.
pub(crate) fn push_behind_packed(
    text: &mut Vec<u8>,
    packed: bool,
    word: &[u8],
) -> Result<(), AllocError>
    ensures { IfOk result (λ _. text.new.items ≡ text.old.items ++ (packed_text packed ++ word.now)) }
{
    if packed {
        text.extend_from_slice(b"packed ")?;
    }
    text.extend_from_slice(word)?;
    Ok(())
}

/// Adds the text of an enumerated type.
pub(crate) fn push_named(text: &mut Vec<u8>, names: &[Word]) -> Result<(), AllocError>
    ensures { IfOk result (λ _. text.new.items ≡ text.old.items ++ (codes "(" ++ listed names.now ++ codes ")")) }
{
    text.push(b'(')?;
    push_listed(text, names)?;
    text.push(b')')?;
    Ok(())
}

/// Adds the text of a subrange type.
pub(crate) fn push_range(
    alloc: Global,
    text: &mut Vec<u8>,
    host: &Ty,
    low: i64,
    high: i64,
) -> Result<(), AllocError>
    ensures { IfOk result (λ _. text.new.items ≡ text.old.items ++ (constant_text (structure host.now) low ++ codes ".." ++ constant_text (structure host.now) high)) }
{
    push_constant(alloc, text, host, low)?;
    text.extend_from_slice(b"..")?;
    push_constant(alloc, text, host, high)?;
    Ok(())
}

/// Adds the text of a pointer type.
pub(crate) fn push_pointer(text: &mut Vec<u8>, domain: &[u8]) -> Result<(), AllocError>
    ensures { IfOk result (λ _. text.new.items ≡ text.old.items ++ (codes "^" ++ domain.now)) }
{
    text.push(b'^')?;
    text.extend_from_slice(domain)?;
    Ok(())
}
