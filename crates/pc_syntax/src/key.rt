//! Keys of routines.

ghost use Rattle.std.specs.Prelude.{◌≡◌, [], ◌∷◌, ◌++◌, IfOk};
ghost use Rattle.pc_syntax.specs.Paths.{key_of, is_small_name, ReadsAs};

use crate::bytes::is_spelled;
use crate::error::ReadError;
use crate::parts::parts_behind;
use crate::word::Word;
use crate::words::has_name_form;
use std::alloc::{AllocError, Global};
use std::marker::Model;

/// Which routine of a program: the names of the routines around it from the outermost on, and its own. The program
/// itself has no name here.
#[derive(Drop)]
pub struct Key {
    names: Vec<Word>,
}

impl Model for Key {
    ghost use Rattle.std.specs.Prelude.{ℕ, List};

    ghost Value = { List (List ℕ) };

    ghost view = { λ k. k.names.items };
}

impl Key {
    /// The key of the program.
    pub fn root(alloc: Global) -> Key
        ensures { result ≡ [] }
    {
        Key {
            names: Vec::new(alloc),
        }
    }

    /// The names, the outermost first.
    pub fn names(&self) -> &[Word]
        ensures { result.now ≡ self.now }
    {
        &self.names
    }

    /// The key of a routine directly in the one with this key, by its name in small letters. Fails for want of memory only.
    pub fn child(&self, alloc: Global, name: &[u8]) -> Result<Key, AllocError>
        ensures { IfOk result (λ key. key ≡ self.now ++ name.now ∷ []) }
    {
        let mut key = self.copy(alloc)?;
        key.names.push(Word::new(alloc, name)?)?;
        Ok(key)
    }

    /// The same key once more. Fails for want of memory only.
    pub fn copy(&self, alloc: Global) -> Result<Key, AllocError>
        ensures { IfOk result (λ key. key ≡ self.now) }
    {
        let mut names = Vec::with_capacity(alloc, self.names.len())?;
        for name in &self.names {
            names.push(name.copy(alloc)?)?;
        }
        Ok(Key { names })
    }

    /// The key that the word writes: `.` for the program, or `.` before each name, as `.p.q`. A name is in small letters,
    /// may be a key word, and there are at most 256. Any other word is `BadForm`.
    #[tactic(auto, unfolding(crate::specs::Paths::key_of))]
    pub fn read(alloc: Global, word: &[u8]) -> Result<Key, ReadError>
        ensures { ReadsAs (key_of word.now) result }
    {
        let parts = parts_behind(alloc, b'.', word)?;
        let mut names = Vec::new(alloc);
        for part in &parts {
            if !is_small_name(part) {
                return Err(ReadError::BadForm);
            }
            names.push(Word::new(alloc, part)?)?;
        }
        Ok(Key { names })
    }
}

/// Whether the word is a name, or a key word, in small letters.
fn is_small_name(word: &[u8]) -> bool
    ensures { result ≡ is_small_name word.now }
{
    has_name_form(word) && is_spelled(word, word)
}
