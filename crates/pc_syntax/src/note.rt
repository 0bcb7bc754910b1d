//! Notes: the comments that stay with a node.

ghost use Rattle.std.specs.Prelude.{◌≡◌, true, IfOk};
ghost use Rattle.pc_syntax.specs.Words.{is_comment};

use std::alloc::{AllocError, Global};
use std::marker::Model;

/// A comment with its delimiters, as it was written.
#[derive(Drop)]
pub struct Note {
    bytes: Vec<u8>,
}

impl Model for Note {
    ghost use Rattle.std.specs.Prelude.{◌≡◌, ℕ, List, true};
    ghost use Rattle.pc_syntax.specs.Words.{is_comment};

    ghost Value = { List ℕ };

    ghost view = { λ n. n.bytes.items };

    ghost invariant = { λ n. is_comment n.bytes.items ≡ true };
}

impl Note {
    /// A copy of the bytes, which are one comment.
    pub fn new(alloc: Global, bytes: &[u8]) -> Result<Note, AllocError>
        requires { is_comment bytes.now ≡ true }
        ensures { IfOk result (λ note. note ≡ bytes.now) }
    {
        Ok(Note {
            bytes: bytes.to_vec(alloc)?,
        })
    }

    pub fn bytes(&self) -> &[u8]
        ensures value { result.now ≡ self.now }
        ensures comment { is_comment self.now ≡ true }
    {
        &self.bytes
    }
}
