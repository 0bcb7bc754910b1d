//! Owners of declarations.

ghost use Rattle.std.specs.Prelude.{◌≡◌, [], true, IfOk};
ghost use Rattle.pc_syntax.specs.Words.{lowered};
ghost use Rattle.pc_scope.specs.Sites.{owner_within, is_declared_at};
ghost use Rattle.pc_scope.specs.Table.{declarations_in};

use crate::names::Names;
use crate::places::is_same;
use crate::spelling::small;
use pc_syntax::{Key, Path};
use std::alloc::{AllocError, Global};
use std::marker::Model;

/// The key of a routine or the program, which is its own or that of the nearest around it that has one.
#[derive(Drop)]
pub struct Owner {
    pub key: Key,
    pub is_own: bool,
}

impl Model for Owner {
    ghost use Rattle.pc_scope.specs.Around.{Owner as Seen};

    ghost Value = { Seen };

    ghost view = { λ o. record { key = o.key; is_own = o.is_own } };
}

impl Owner {
    /// The program.
    pub fn program(alloc: Global) -> Owner
        ensures { result ≡ record { key = []; is_own = true } }
    {
        Owner {
            key: Key::root(alloc),
            is_own: true,
        }
    }

    /// The owner of a routine directly in a block of this owner, by the names of the block, the routine's name, spelled in any
    /// case, and the place of the name in the heading that counts.
    pub fn inner(
        &self,
        alloc: Global,
        names: &Names,
        name: &[u8],
        place: &Path,
    ) -> Result<Owner, AllocError>
        ensures { IfOk result (λ owner. owner ≡ owner_within self.now (is_declared_at (declarations_in names.now.entries.items) (lowered name.now) place.now) (lowered name.now)) }
    {
        if self.is_own && is_declared_at(names, name, place) {
            let name = small(alloc, name)?;
            return Ok(Owner {
                key: self.key.child(alloc, name.bytes())?,
                is_own: true,
            });
        }
        Ok(Owner {
            key: self.key.copy(alloc)?,
            is_own: false,
        })
    }
}

/// Whether the first declaration of a name, spelled in any case, is at a place. Nothing is declared by a hole.
fn is_declared_at(names: &Names, name: &[u8], place: &Path) -> bool
    ensures { result ≡ is_declared_at (declarations_in names.now.entries.items) (lowered name.now) place.now }
{
    if name.is_empty() {
        return false;
    }
    match names.entry(name) {
        Some(entry) => is_same(entry.decl.place.steps(), place.steps()),
        None => false,
    }
}
