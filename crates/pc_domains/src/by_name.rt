//! The types of blocks by their names.

ghost use Rattle.std.specs.Prelude.{◌≡◌, ◌&&◌, nat_eq, ℕ, [], if◌then◌else◌, OnOk};
ghost use Rattle.pc_domains.specs.Told.{type_at};

use indexmap::IndexMap;
use pc_names::NameId;
use pc_types::{OwnerId, TypeId};
use std::alloc::{AllocError, Global};
use std::marker::Model;

/// The types that blocks declare, by the numbers of owner and name.
#[derive(Drop)]
pub(crate) struct TypesByName {
    table: IndexMap<(u32, u32), Option<TypeId>>,
}

impl Model for TypesByName {
    ghost use Rattle.std.specs.Prelude.{List, ℕ, Option};
    ghost use Rattle.pc_types.specs.declared.form.TypeId.{TypeId as Numbered};

    ghost Value = { List ((ℕ × ℕ) × Option Numbered) };

    ghost view = { λ t. t.table.entries };
}

impl TypesByName {
    /// None.
    pub(crate) fn new(alloc: Global) -> TypesByName
        ensures { result ≡ [] }
    {
        TypesByName {
            table: IndexMap::new(alloc),
        }
    }

    /// The type that stands under an owner and a name.
    pub(crate) fn at(&self, owner: OwnerId, name: u32) -> Option<TypeId>
        ensures { result ≡ type_at self.now owner.0 name }
    {
        match self.table.get(&(owner.0, name)) {
            Some(entry) => *entry,
            None => None,
        }
    }

    /// This stands under an owner and a name from now on. Only memory can fail.
    pub(crate) fn put(
        &mut self,
        owner: OwnerId,
        name: NameId,
        of: Option<TypeId>,
    ) -> Result<(), AllocError>
        ensures { OnOk result ((o i : ℕ) → type_at self.new o i ≡ (if nat_eq owner.0 o && nat_eq name.0 i then of else type_at self.old o i)) }
    {
        self.table.insert((owner.0, name.0), of)?;
        Ok(())
    }
}
