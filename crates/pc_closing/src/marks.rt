//! Which new types count as whole so far.

ghost use Rattle.std.specs.Prelude.{◌≡◌, ◌+◌, ◌<◌, ◌^◌, [], true, false, replicate, slice_get, get_or, IfOk, IfSome, OnOk};
ghost use Rattle.pc_closing.specs.Search.{enter, enter_all};

use std::alloc::{AllocError, Global};
use std::marker::Model;

/// The new types: which count as whole so far, and those that were found not to be, each once, in the order in which they were found.
#[derive(Drop)]
pub(crate) struct Marks {
    whole: Vec<bool>,
    found: Vec<u32>,
}

impl Model for Marks {
    ghost use Rattle.pc_closing.specs.Search.{Marks as Marked};

    ghost Value = { Marked };

    ghost view = { λ m. record { whole = m.whole.items; found = m.found.items } };
}

impl Marks {
    /// All of so many types count as whole.
    pub fn new(alloc: Global, count: usize) -> Result<Marks, AllocError>
        ensures { IfOk result (λ m. m ≡ record { whole = replicate count true; found = [] }) }
    {
        Ok(Marks {
            whole: vec![in alloc; true; count]?,
            found: Vec::new(alloc),
        })
    }

    /// Whether a type counts as whole; one that is not there doesn't.
    fn counts(&self, i: usize) -> bool
        ensures { result ≡ get_or self.now.whole i false }
    {
        i < self.whole.len() && self.whole[i]
    }

    /// The type is not whole. Only memory can fail.
    pub fn enter(&mut self, i: u32) -> Result<(), AllocError>
        ensures { OnOk result (self.new ≡ enter i self.old) }
    {
        if self.counts(i as usize) {
            self.found.push(i)?;
            self.whole[i as usize] = false;
        }
        Ok(())
    }

    /// None of the types is whole. Only memory can fail.
    pub fn enter_all(&mut self, ids: &[u32]) -> Result<(), AllocError>
        ensures { OnOk result (self.new ≡ enter_all ids.now self.old) }
    {
        for id in ids {
            self.enter(*id)?;
        }
        Ok(())
    }

    /// The type that was found at this place of the order, if so many were found.
    pub fn found(&self, at: usize) -> Option<u32>
        ensures value { result ≡ slice_get self.now.found at }
        ensures small { IfSome result (λ _. at + 1 < 2 ^ 64) }
    {
        self.found.get(at).copied()
    }

    /// The flags.
    pub fn into_flags(self) -> Vec<bool>
        ensures { result.items ≡ self.whole }
    {
        self.whole
    }
}
