//! The variables that a statement part touches.

ghost use Rattle.std.specs.Prelude.{◌≡◌, ◌++◌, ◌∷◌, [], length, OnOk, OnErr};
ghost use Rattle.pc_sightings.specs.TouchedLog.{numbers_of, noted, stands_since};

use indexmap::IndexMap;
use pc_facts::Variable;
use std::alloc::{AllocError, Global};
use std::marker::Model;

/// Variables that were touched, in order, each by the number of the block that declares it and that of its name.
#[derive(Drop)]
pub struct Touched {
    log: Vec<(u32, u32)>,
    last: IndexMap<(u32, u32), usize>,
}

impl Model for Touched {
    ghost use Rattle.std.specs.Prelude.{List, ℕ};
    ghost use Rattle.pc_sightings.specs.TouchedLog.{HasLast};

    ghost Value = { List (ℕ × ℕ) };

    ghost view = { λ t. t.log.items };

    ghost invariant = { λ t. HasLast t.log.items t.last.entries };
}

impl Touched {
    /// No variable was touched.
    pub fn new(alloc: Global) -> Touched
        ensures { result ≡ [] }
    {
        Touched {
            log: Vec::new(alloc),
            last: IndexMap::new(alloc),
        }
    }

    /// The variable was touched. Only memory can fail.
    pub fn note(&mut self, variable: Variable) -> Result<(), AllocError>
        ensures log { OnOk result (self.new ≡ self.old ++ numbers_of variable ∷ []) }
        ensures failure { OnErr result (self.new ≡ self.old) }
    {
        let touched = (variable.owner.0, variable.name.0);
        let place = self.log.len();
        self.log.push(touched)?;
        match self.last.insert(touched, place) {
            Ok(_) => Ok(()),
            Err(_) => {
                self.log.pop();
                Err(AllocError)
            }
        }
    }

    /// The same of a variable that a node names, if it names one.
    pub fn note_known(&mut self, variable: Option<Variable>) -> Result<(), AllocError>
        ensures log { OnOk result (self.new ≡ self.old ++ noted variable) }
        ensures failure { OnErr result (self.new ≡ self.old) }
    {
        if let Some(known) = variable {
            self.note(known)?;
        }
        Ok(())
    }

    /// How often variables were touched so far: a mark for `since`.
    pub fn mark(&self) -> usize
        ensures { result ≡ length self.now }
    {
        self.log.len()
    }

    /// Whether the variable was touched since the mark. Work: one look-up in a hash table.
    pub fn since(&self, mark: usize, variable: Variable) -> bool
        ensures { result ≡ stands_since mark self.now (numbers_of variable) }
    {
        match self.last.get(&(variable.owner.0, variable.name.0)) {
            Some(place) => mark <= *place,
            None => false,
        }
    }
}
