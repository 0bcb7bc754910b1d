//! The owners whose types are closed.

ghost use Rattle.std.specs.Prelude.{◌≡◌, ◌<◌, ◌^◌, nat_eq, ℕ, [], true, false, get_or, length, if◌then◌else◌, OnOk};

use pc_types::OwnerId;
use std::alloc::{AllocError, Global};
use std::marker::Model;

/// A flag for each owner, by its number, as far as there are any: whether its types are closed.
#[derive(Drop)]
pub(crate) struct ClosedOwners {
    flags: Vec<bool>,
}

impl Model for ClosedOwners {
    ghost use Rattle.std.specs.Prelude.{List, Bool};

    ghost Value = { List Bool };

    ghost view = { λ o. o.flags.items };
}

impl ClosedOwners {
    /// None.
    pub(crate) fn new(alloc: Global) -> ClosedOwners
        ensures { result ≡ [] }
    {
        ClosedOwners {
            flags: Vec::new(alloc),
        }
    }

    /// Whether the types of an owner are closed.
    pub(crate) fn has(&self, owner: OwnerId) -> bool
        ensures { result ≡ get_or self.now owner.0 false }
    {
        match self.flags.get(owner.0 as usize).copied() {
            Some(flag) => flag,
            None => false,
        }
    }

    /// The types of an owner are closed from now on. Only memory can fail.
    pub(crate) fn close(&mut self, owner: OwnerId) -> Result<(), AllocError>
        ensures { OnOk result ((o : ℕ) → get_or self.new o false ≡ (if nat_eq owner.0 o then true else get_or self.old o false)) }
    {
        let at = owner.0 as usize;
        self.reach(at)?;
        self.flags[at] = true;
        Ok(())
    }

    /// There is a flag for this owner.
    fn reach(&mut self, at: usize) -> Result<(), AllocError>
        requires { at < 2 ^ 32 }
        ensures reached { OnOk result (at < length self.new) }
        ensures same { (o : ℕ) → get_or self.new o false ≡ get_or self.old o false }
    {
        while self.flags.len() <= at {
            self.flags.push(false)?;
        }
        Ok(())
    }
}
