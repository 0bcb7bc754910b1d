//! How large the text of a view may be.

ghost use Rattle.std.specs.Prelude.{◌≡◌, IfOk};
ghost use Rattle.pc_views.specs.Limit.{text_limit, limited};

use std::alloc::{AllocError, Global};

/// The most bytes of the text of a view.
pub fn text_limit() -> usize
    ensures { result ≡ text_limit }
{
    10_000_000
}

/// What is shown of a text: one line in its place where it is over the limit.
pub fn limited(alloc: Global, text: Vec<u8>) -> Result<Vec<u8>, AllocError>
    ensures { IfOk result (λ shown. shown.items ≡ limited text.items) }
{
    if text.len() <= text_limit() {
        return Ok(text);
    }
    let mut line = Vec::new(alloc);
    line.extend_from_slice(b"view too large\n")?;
    Ok(line)
}
