//! The texts of nodes.

ghost use Rattle.std.specs.Prelude.{◌≡◌, [], IfOk};
ghost use Rattle.std.specs.Option.{option_map_or};

use crate::note::Note;
use crate::word::Word;
use std::alloc::{AllocError, Global};
use std::rc::Rc;

/// The word and the notes of a node, which its copies share.
#[derive(Drop)]
pub struct Text {
    pub word: Word,
    pub notes: Vec<Note>,
}

impl Text {
    /// The text with this word and these notes; none where there are no word and no notes.
    pub fn new(alloc: Global, word: &[u8], notes: Vec<Note>) -> Result<Option<Rc<Text>>, AllocError>
        ensures word { IfOk result (λ text. option_map_or (λ t. t.value.word) text [] ≡ word.now) }
        ensures notes { IfOk result (λ text. option_map_or (λ t. t.value.notes.items) text [] ≡ notes.items) }
    {
        if word.is_empty() && notes.is_empty() {
            return Ok(None);
        }
        let word = Word::new(alloc, word)?;
        Ok(Some(Rc::new(alloc, Text { word, notes })?))
    }
}
