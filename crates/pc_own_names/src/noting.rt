//! Names are noted one after the other, of equal ones the first alone.

ghost use Rattle.std.specs.Prelude.{◌≡◌, [], ◌∷◌, IfOk, OnOk};
ghost use Rattle.pc_syntax.specs.Words.{lowered};
ghost use Rattle.pc_own_names.specs.Noting.{Notes};

use crate::own_name::DeclaredName;
use pc_names::Names;
use pc_syntax::{Kind, Word, lower};
use std::alloc::{AllocError, Global};

/// A name in any case that a node of this kind declares is noted: it is kept in small letters, unless it has a number. Only memory can
/// fail.
pub(crate) fn note_word(
    alloc: Global,
    names: &mut Names,
    found: &mut Vec<DeclaredName>,
    word: &[u8],
    kind: Kind,
) -> Result<(), AllocError>
    ensures { OnOk result (Notes ((lowered word.now, kind) ∷ []) names.old.texts names.new.texts found.old.items found.new.items) }
{
    let small = small(alloc, word)?;
    if names.number_of(small.as_slice()).is_some() {
        return Ok(());
    }
    names.number(word)?;
    found.push(DeclaredName {
        name: Word::from_vec(small),
        kind,
    })?;
    Ok(())
}

/// A word in small letters.
fn small(alloc: Global, word: &[u8]) -> Result<Vec<u8>, AllocError>
    ensures { IfOk result (λ small. small.items ≡ lowered word.now) }
{
    let mut small = Vec::with_capacity(alloc, word.len())?;
    for byte in word {
        small.push(lower(*byte))?;
    }
    Ok(small)
}
