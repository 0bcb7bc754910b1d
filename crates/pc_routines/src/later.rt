//! The routines behind a place that are no forward ones.

ghost use Rattle.std.specs.Prelude.{◌≡◌, ◌&&◌, nat_eq, ℕ, [], if◌then◌else◌, Some, true, OnOk};
ghost use Rattle.std.specs.Option.{is_some};
ghost use Rattle.pc_routines.specs.Heads.{found_at, side};
ghost use Rattle.pc_routines.specs.Later.{later_at};

use crate::table::side;
use indexmap::IndexMap;
use pc_names::NameId;
use std::alloc::{AllocError, Global};
use std::marker::Model;

/// The names of the routines that are no forward ones, by number and side.
#[derive(Drop)]
pub(crate) struct Later {
    table: IndexMap<(u32, u32), bool>,
}

impl Model for Later {
    ghost use Rattle.std.specs.Prelude.{List, ℕ, Bool};

    ghost Value = { List ((ℕ × ℕ) × Bool) };

    ghost view = { λ l. l.table.entries };
}

impl Later {
    /// None.
    pub(crate) fn new(alloc: Global) -> Later
        ensures { result ≡ [] }
    {
        Later {
            table: IndexMap::new(alloc),
        }
    }

    /// Whether there is one with this name on this side.
    pub(crate) fn has(&self, name: Option<NameId>, is_function: bool) -> bool
        ensures { result ≡ is_some (found_at (later_at self.now) name is_function) }
    {
        match name {
            Some(id) => self.table.get(&(id.0, side(is_function))).is_some(),
            None => false,
        }
    }

    /// One with this name on this side. Only memory can fail.
    pub(crate) fn add(&mut self, name: NameId, is_function: bool) -> Result<(), AllocError>
        ensures { OnOk result ((i s : ℕ) → later_at self.new i s ≡ (if nat_eq name.0 i && nat_eq (side is_function) s then Some true else later_at self.old i s)) }
    {
        self.table.insert((name.0, side(is_function)), true)?;
        Ok(())
    }
}
