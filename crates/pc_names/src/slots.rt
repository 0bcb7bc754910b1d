//! What the blocks have of the names.

ghost use Rattle.std.specs.Prelude.{◌≡◌, ◌&&◌, nat_eq, ℕ, [], if◌then◌else◌, Some, OnOk, OnErr};
ghost use Rattle.std.specs.Map.{lookup};
ghost use Rattle.pc_names.specs.Bindings.{is_at, slot_in};

use crate::slot::Slot;
use indexmap::IndexMap;
use std::alloc::{AllocError, Global};
use std::marker::Model;

/// What is bound in a block to a name, both by their numbers.
#[derive(Drop)]
pub struct Slots {
    slots: IndexMap<(u32, u32), Slot>,
}

impl Model for Slots {
    ghost use Rattle.std.specs.Prelude.{List, ℕ};
    ghost use Rattle.pc_names.specs.declared.slot.Slot.{Slot as Had};

    ghost Value = { List ((ℕ × ℕ) × Had) };

    ghost view = { λ s. s.slots.entries };
}

impl Slots {
    /// Nothing is bound.
    pub fn new(alloc: Global) -> Slots
        ensures { result ≡ [] }
    {
        Slots {
            slots: IndexMap::new(alloc),
        }
    }

    /// What a block has of a name. Work: one look-up in a hash table.
    pub fn slot(&self, block: u32, name: u32) -> Slot
        ensures { result ≡ slot_in self.now block name }
    {
        match self.slots.get(&(block, name)) {
            Some(slot) => *slot,
            None => Slot::empty(),
        }
    }

    /// Binds this in a block to a name. Only memory can fail.
    pub fn bind(&mut self, block: u32, name: u32, slot: Slot) -> Result<(), AllocError>
        ensures slots { OnOk result ((b n : ℕ) → lookup (is_at b n) self.new ≡ (if nat_eq block b && nat_eq name n then Some slot else lookup (is_at b n) self.old)) }
        ensures failure { OnErr result (self.new ≡ self.old) }
    {
        self.slots.insert((block, name), slot)?;
        Ok(())
    }
}
