//! Entries of the error list.

ghost use Rattle.std.specs.Prelude.{◌≡◌, ◌∷◌, IfOk};
ghost use Rattle.pc_rules.specs.Attributes.{Entry};

use std::alloc::AllocError;
use std::marker::Model;

/// An entry of the error list: the place of a node, the number of a row of the table of errors, and a text.
#[derive(Drop)]
pub struct ErrorEntry {
    place: Vec<u32>,
    row: u8,
    text: Vec<u8>,
}

impl Model for ErrorEntry {
    ghost use Rattle.pc_rules.specs.Attributes.{Entry};

    ghost Value = { Entry };

    ghost view = { λ e. record { place = e.place.items; row = e.row; text = e.text.items } };
}

impl ErrorEntry {
    /// The entry of these parts.
    pub fn new(place: Vec<u32>, row: u8, text: Vec<u8>) -> ErrorEntry
        ensures { result ≡ record { place = place.items; row = row; text = text.items } }
    {
        ErrorEntry { place, row, text }
    }

    /// The way to the node: the number of a kid, from 1, at each step from where the report began.
    pub fn place(&self) -> &[u32]
        ensures { result.now ≡ self.now.place }
    {
        &self.place
    }

    /// The number of the row, from 1.
    pub fn row(&self) -> u8
        ensures { result ≡ self.now.row }
    {
        self.row
    }

    pub fn text(&self) -> &[u8]
        ensures { result.now ≡ self.now.text }
    {
        &self.text
    }

    /// The entry as seen from the node above, whose kid `i`, from 1, is the node that it is seen from now. Only memory can fail.
    pub fn seen_from_above(self, i: u32) -> Result<ErrorEntry, AllocError>
        ensures { IfOk result (λ entry. entry ≡ record self { place = i ∷ self.place }) }
    {
        let mut place = self.place;
        place.insert(0, i)?;
        Ok(ErrorEntry {
            place,
            row: self.row,
            text: self.text,
        })
    }
}
