//! Names without regard to case (ISO 7185, 6.1.3).

ghost use Rattle.std.specs.Prelude.{◌≡◌, IfOk};
ghost use Rattle.pc_syntax.specs.Words as words;

use pc_syntax::{Word, lower};
use std::alloc::{AllocError, Global};

/// The name in small letters.
pub fn small(alloc: Global, name: &[u8]) -> Result<Word, AllocError>
    ensures { IfOk result (λ word. word ≡ words.lowered name.now) }
{
    let mut bytes = Vec::with_capacity(alloc, name.len())?;
    for byte in name {
        bytes.push(lower(*byte))?;
    }
    Ok(Word::from_vec(bytes))
}
