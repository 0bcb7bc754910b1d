//! Equality of trees.

ghost use Rattle.std.specs.Prelude.{◌≡◌, ◌↔◌, IsTrue};

use crate::note::Note;
use crate::tree::Tree;

impl Tree {
    /// Whether two trees are equal.
    pub fn same(&self, other: &Tree) -> bool
        ensures { IsTrue result ↔ (self.now ≡ other.now) }
    {
        if self.size() != other.size() || self.kids() != other.kids() {
            return false;
        }
        if !self.kind().is(other.kind()) || !same_bytes(self.word(), other.word()) {
            return false;
        }
        if !same_notes(self.notes(), other.notes()) {
            return false;
        }
        let others = other.kid_slice();
        for (i, kid) in self.kid_slice().iter().enumerate() {
            if !kid.same(&others[i]) {
                return false;
            }
        }
        true
    }
}

/// Whether these are the same bytes.
fn same_bytes(bytes: &[u8], others: &[u8]) -> bool
    ensures { IsTrue result ↔ (bytes.now ≡ others.now) }
{
    bytes == others
}

/// Whether these are the same notes.
fn same_notes(notes: &[Note], others: &[Note]) -> bool
    ensures { IsTrue result ↔ (notes.now ≡ others.now) }
{
    if notes.len() != others.len() {
        return false;
    }
    for (i, note) in notes.iter().enumerate() {
        if !same_bytes(note.bytes(), others[i].bytes()) {
            return false;
        }
    }
    true
}
