//! The characters of texts (ISO 7185, 6.1.7).

ghost use Rattle.std.specs.Prelude.{◌≡◌, OnOk, IfOk};
ghost use Rattle.pc_rules.specs.Constants as constants;

use std::alloc::{AllocError, Global};

/// The characters of a text that is written with its apostrophes. Only memory can fail.
pub fn characters_of(alloc: Global, word: &[u8]) -> Result<Vec<u8>, AllocError>
    ensures { IfOk result (λ chars. chars.items ≡ constants.characters word.now) }
{
    match word {
        [_, rest @ ..] => Ok(characters_after(alloc, rest)?),
        [] => Ok(Vec::new(alloc)),
    }
}

/// The characters of a text after its opening apostrophe.
fn characters_after(alloc: Global, bytes: &[u8]) -> Result<Vec<u8>, AllocError>
    ensures { IfOk result (λ chars. chars.items ≡ constants.characters_after bytes.now) }
{
    let mut chars = Vec::new(alloc);
    let mut rest = bytes;
    while let [byte, next, tail @ ..] = rest {
        chars.push(*byte)?;
        if *byte == 39 {
            rest = tail;
        } else {
            rest = &rest[1..];
        }
    }
    Ok(chars)
}
