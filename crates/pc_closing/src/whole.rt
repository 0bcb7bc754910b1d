//! The types of a table from which nothing unknown is reached.

ghost use Rattle.std.specs.Prelude.{◌≡◌, ◌≤◌, [], true, get_or, length, max, OnOk, OnErr};
ghost use Rattle.pc_types.specs.Rows.{seen};
ghost use Rattle.pc_types.specs.Table.{shape_at};
ghost use Rattle.pc_closing.specs.Whole.{is_whole_in, AreFound, AreWhole};

use crate::search::search;
use pc_types::{Operand, Types};
use std::alloc::{AllocError, Global};
use std::marker::Model;

/// A flag for each type of a table, in the order of their numbers: whether every domain that is reached from it has a type.
#[derive(Drop)]
pub struct Whole {
    flags: Vec<bool>,
}

impl Model for Whole {
    ghost use Rattle.std.specs.Prelude.{List, Bool};

    ghost Value = { List Bool };

    ghost view = { λ w. w.flags.items };
}

impl Whole {
    /// No flags.
    pub fn new(alloc: Global) -> Whole
        ensures { result ≡ [] }
    {
        Whole {
            flags: Vec::new(alloc),
        }
    }

    /// Flags for the types that have none so far; all are right where those that there are were right for the table as it is now, and the
    /// table has at the place of each domain that domain's type. Only memory can fail, and then nothing has changed. Work: in the number of
    /// the types without flags and of their fields.
    pub fn settle(&mut self, alloc: Global, types: &Types) -> Result<(), AllocError>
        ensures right { OnOk result (AreWhole (seen types.now) self.old → AreFound (seen types.now) → AreWhole (seen types.now) self.new) }
        ensures all { OnOk result (length self.new ≡ max (length self.old) (length (seen types.now).shapes)) }
        ensures failure { OnErr result (self.new ≡ self.old) }
    {
        let known = self.flags.len();
        let count = types.count();
        if known < count {
            let mut more = search(alloc, &self.flags, types, count - known)?;
            self.flags.append(&mut more)?;
        }
        Ok(())
    }

    /// Whether every domain that is reached from the type of an expression has a type, where each type of the table has a flag, and the
    /// flags are right. Work: one look.
    pub fn is_whole(&self, types: &Types, of: Operand) -> bool
        ensures { AreWhole (seen types.now) self.now → length (seen types.now).shapes ≤ length self.now → result ≡ is_whole_in (seen types.now).domains (shape_at (seen types.now) of) }
    {
        match of {
            Operand::Id(id) => self.flag(id.0 as usize),
            Operand::Text(_) => true,
            Operand::Members(_) => true,
            Operand::NoMembers => true,
        }
    }

    /// The flag with this number, and true where there is none.
    fn flag(&self, i: usize) -> bool
        ensures { result ≡ get_or self.now i true }
    {
        match self.flags.get(i).copied() {
            Some(flag) => flag,
            None => true,
        }
    }
}
