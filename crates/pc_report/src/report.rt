//! The entries so far, and the place of the node at hand.

ghost use Rattle.std.specs.Prelude.{◌≡◌, [], ◌∷◌, ◌++◌, ◌-◌, length, take, IfOk, OnOk, OnErr};
ghost use Rattle.pc_rules.specs.Attributes.{at_kid};
ghost use Rattle.pc_rules.specs.Entries.{note, note_if};
ghost use Rattle.pc_rules.specs.Errors.{from_place, in_order};
ghost use Rattle.pc_report.specs.Noted.{Noted};

use crate::entry::ErrorEntry;
use crate::order::put_in_order;
use std::alloc::{AllocError, Global};
use std::marker::Model;

/// What has been noted of a tree so far: its entries, and the place of the node at hand. A node is entered before its kids are
/// gone through and left behind them.
#[derive(Drop)]
pub struct Report {
    entries: Vec<ErrorEntry>,
    path: Vec<u32>,
}

impl Model for Report {
    ghost use Rattle.pc_report.specs.Noted.{Noted};

    ghost Value = { Noted };

    ghost view = { λ r. record { entries = r.entries.items; path = r.path.items } };
}

impl Report {
    /// Nothing noted yet, at the node where the report begins.
    pub fn new(alloc: Global) -> Report
        ensures { result ≡ record { entries = []; path = [] } }
    {
        Report {
            entries: Vec::new(alloc),
            path: Vec::new(alloc),
        }
    }

    /// Goes to kid `i`, from 1, of the node at hand.
    pub fn enter(&mut self, i: u32) -> Result<(), AllocError>
        ensures path { OnOk result (self.new.path ≡ self.old.path ++ i ∷ []) }
        ensures entries { self.new.entries ≡ self.old.entries }
        ensures failure { OnErr result (self.new.path ≡ self.old.path) }
    {
        self.path.push(i)?;
        Ok(())
    }

    /// Goes back to the node above the one at hand; stays where the report began.
    pub fn leave(&mut self)
        ensures path { self.new.path ≡ take (length self.old.path - 1) self.old.path }
        ensures entries { self.new.entries ≡ self.old.entries }
    {
        self.path.pop();
    }

    /// Adds an entry of this row at the node at hand. Its text is the two pieces together.
    #[tactic(auto, using(crate::specs::PlacesLaws::places))]
    pub fn note(
        &mut self,
        alloc: Global,
        row: u8,
        text: &[u8],
        word: &[u8],
    ) -> Result<(), AllocError>
        ensures entries { OnOk result (self.new.entries ≡ self.old.entries ++ from_place self.old.path (note row (text.now ++ word.now))) }
        ensures path { self.new.path ≡ self.old.path }
        ensures failure { OnErr result (self.new.entries ≡ self.old.entries) }
    {
        let place = self.path.to_vec(alloc)?;
        let mut whole = text.to_vec(alloc)?;
        whole.extend_from_slice(word)?;
        self.entries.push(ErrorEntry::new(place, row, whole))?;
        Ok(())
    }

    /// Adds an entry of this row at kid `i`, from 1, of the node at hand. Its text is the two pieces together.
    #[tactic(auto, using(crate::specs::PlacesLaws::places))]
    pub fn note_at(
        &mut self,
        alloc: Global,
        i: u32,
        row: u8,
        text: &[u8],
        word: &[u8],
    ) -> Result<(), AllocError>
        ensures entries { OnOk result (self.new.entries ≡ self.old.entries ++ from_place self.old.path (at_kid i (note row (text.now ++ word.now)))) }
        ensures path { self.new.path ≡ self.old.path }
        ensures failure { OnErr result (self.new.entries ≡ self.old.entries) }
    {
        self.enter(i)?;
        let noted = self.note(alloc, row, text, word);
        self.leave();
        noted
    }

    /// Adds that entry where the condition holds.
    #[tactic(auto, using(crate::specs::PlacesLaws::places))]
    pub fn note_if(
        &mut self,
        alloc: Global,
        is_so: bool,
        row: u8,
        text: &[u8],
        word: &[u8],
    ) -> Result<(), AllocError>
        ensures entries { OnOk result (self.new.entries ≡ self.old.entries ++ from_place self.old.path (note_if is_so row (text.now ++ word.now))) }
        ensures path { self.new.path ≡ self.old.path }
        ensures failure { OnErr result (self.new.entries ≡ self.old.entries) }
    {
        if is_so {
            self.note(alloc, row, text, word)?;
        }
        Ok(())
    }

    /// Adds that entry at kid `i`, from 1, of the node at hand where the condition holds.
    #[tactic(auto, using(crate::specs::PlacesLaws::places))]
    pub fn note_at_if(
        &mut self,
        alloc: Global,
        i: u32,
        is_so: bool,
        row: u8,
        text: &[u8],
        word: &[u8],
    ) -> Result<(), AllocError>
        ensures entries { OnOk result (self.new.entries ≡ self.old.entries ++ from_place self.old.path (at_kid i (note_if is_so row (text.now ++ word.now)))) }
        ensures path { self.new.path ≡ self.old.path }
        ensures failure { OnErr result (self.new.entries ≡ self.old.entries) }
    {
        if is_so {
            self.note_at(alloc, i, row, text, word)?;
        }
        Ok(())
    }

    /// The entries in the order of the error list. Only memory can fail.
    pub fn into_entries(self, alloc: Global) -> Result<Vec<ErrorEntry>, AllocError>
        ensures { IfOk result (λ entries. entries.items ≡ in_order self.entries) }
    {
        let mut entries = self.entries;
        put_in_order(alloc, &mut entries)?;
        Ok(entries)
    }
}
