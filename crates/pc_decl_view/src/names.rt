//! The lines of the names of a routine.

ghost use Rattle.std.specs.Prelude.{◌≡◌, ◌++◌, codes, IfOk};
ghost use Rattle.std.specs.List.{flat_map};
ghost use Rattle.pc_types.specs.Rows.{seen};
ghost use Rattle.pc_views.specs.Limit.{Agrees};
ghost use Rattle.pc_decl.specs.DeclsText.{class_text};
ghost use Rattle.pc_decl_view.specs.KeptLines.{type_meant, type_shown, class_and_kept_type, kept_name_line};

use crate::class::class_word;
use crate::meaning::type_meant;
use pc_decl::push_operand;
use pc_facts::{Sighting, Signature};
use pc_own_names::OwnName;
use pc_syntax::Kind;
use pc_types::{Operand, Types};
use pc_views::text_limit;
use std::alloc::{AllocError, Global};

/// Adds the line of each name, and stops where the text is over the limit.
pub(crate) fn push_names(
    alloc: Global,
    text: &mut Vec<u8>,
    types: &Types,
    signatures: &[Signature],
    names: &[OwnName],
) -> Result<(), AllocError>
    ensures { IfOk result (λ _. Agrees text.new.items (text.old.items ++ flat_map (kept_name_line (seen types.now) signatures.now) names.now)) }
{
    for name in names {
        if text.len() > text_limit() {
            return Ok(());
        }
        push_name(alloc, text, types, signatures, name)?;
    }
    Ok(())
}

/// Adds the line of a name: the name, its class, and its type, unless it is a procedure.
fn push_name(
    alloc: Global,
    text: &mut Vec<u8>,
    types: &Types,
    signatures: &[Signature],
    name: &OwnName,
) -> Result<(), AllocError>
    ensures { IfOk result (λ _. Agrees text.new.items (text.old.items ++ kept_name_line (seen types.now) signatures.now name.now)) }
{
    push_spelled(text, name.name.bytes())?;
    push_class(alloc, text, types, signatures, name.kind, name.meaning)?;
    text.push(b'\n')?;
    Ok(())
}

/// Adds the name behind two spaces, and a space.
fn push_spelled(text: &mut Vec<u8>, name: &[u8]) -> Result<(), AllocError>
    ensures { IfOk result (λ _. text.new.items ≡ text.old.items ++ (codes "  " ++ name.now ++ codes " ")) }
{
    text.extend_from_slice(b"  ")?;
    text.extend_from_slice(name)?;
    text.push(b' ')?;
    Ok(())
}

/// Adds the class of a name that a node of this kind declares, and its type, unless it is a procedure.
fn push_class(
    alloc: Global,
    text: &mut Vec<u8>,
    types: &Types,
    signatures: &[Signature],
    kind: Kind,
    meaning: Sighting,
) -> Result<(), AllocError>
    ensures { IfOk result (λ _. Agrees text.new.items (text.old.items ++ class_and_kept_type (seen types.now) signatures.now kind meaning)) }
{
    match kind {
        Kind::Procedure => {
            text.extend_from_slice(class_word(kind))?;
            Ok(())
        }
        _ => {
            push_class_before_type(text, kind)?;
            push_type_shown(alloc, text, types, type_meant(signatures, meaning))?;
            Ok(())
        }
    }
}

/// Adds the word for the class, and a space.
fn push_class_before_type(text: &mut Vec<u8>, kind: Kind) -> Result<(), AllocError>
    ensures { IfOk result (λ _. text.new.items ≡ text.old.items ++ (class_text kind ++ codes " ")) }
{
    text.extend_from_slice(class_word(kind))?;
    text.push(b' ')?;
    Ok(())
}

/// Adds the text of a type, and a question mark where it is unknown.
fn push_type_shown(
    alloc: Global,
    text: &mut Vec<u8>,
    types: &Types,
    operand: Option<Operand>,
) -> Result<(), AllocError>
    ensures { IfOk result (λ _. Agrees text.new.items (text.old.items ++ type_shown (seen types.now) operand)) }
{
    match operand {
        Some(operand) => {
            push_operand(alloc, text, types, operand)?;
            Ok(())
        }
        None => {
            text.push(b'?')?;
            Ok(())
        }
    }
}
