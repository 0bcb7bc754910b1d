//! Headings of routines, as far as they count for which is a forward's later declaration.

ghost use Rattle.std.specs.Prelude.{◌≡◌, IfOk};
ghost use Rattle.pc_scope.specs.Headings.{heading_of};

use crate::headings::{ends_forward, is_function_kind, spelled_name};
use crate::naming::is_routine_kind;
use crate::spelling::small;
use pc_syntax::{Tree, Word};
use std::alloc::{AllocError, Global};
use std::marker::Model;

/// The name of a routine in small letters, empty where it is a hole; whether it is a function, and whether a forward.
#[derive(Drop)]
pub struct Heading {
    pub name: Word,
    pub is_function: bool,
    pub is_forward: bool,
}

impl Model for Heading {
    ghost use Rattle.pc_scope.specs.Headings.{Heading as Seen};

    ghost Value = { Seen };

    ghost view = { λ h. record { name = h.name; is_function = h.is_function; is_forward = h.is_forward } };
}

impl Heading {
    /// The heading of a routine.
    pub fn of(alloc: Global, routine: &Tree) -> Result<Heading, AllocError>
        ensures { IfOk result (λ heading. heading ≡ heading_of routine.now.kind routine.now.kids) }
    {
        Ok(Heading {
            name: small(alloc, spelled_name(routine))?,
            is_function: is_function_kind(routine.kind()),
            is_forward: is_routine_kind(routine.kind()) && ends_forward(routine),
        })
    }
}
