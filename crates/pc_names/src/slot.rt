//! What a block has of a name.

ghost use Rattle.std.specs.Prelude.{◌≡◌};
ghost use Rattle.pc_names.specs.Bindings as bindings;

use crate::bound::Bound;
use crate::id::DeclarationId;
use crate::name_class::NameClass;

/// What a block has of a name: as what the block declares it somewhere, if it does; whether the name stands before; and its
/// declaration, where that is complete.
#[derive(Clone, Copy, PartialEq, Eq, Debug)]
pub struct Slot {
    pub class: Option<NameClass>,
    pub passed: bool,
    pub known: Option<DeclarationId>,
}

impl Slot {
    /// Nothing.
    pub fn empty() -> Slot
        ensures { result ≡ bindings.empty_slot }
    {
        Slot {
            class: None,
            passed: false,
            known: None,
        }
    }

    /// The block declares the name somewhere as this; the first class counts.
    pub fn announced(self, class: NameClass) -> Slot
        ensures { result ≡ bindings.announced self class }
    {
        Slot {
            class: Some(self.class.unwrap_or(class)),
            ..self
        }
    }

    /// The name stands before.
    pub fn passed(self) -> Slot
        ensures { result ≡ bindings.passed self }
    {
        Slot {
            passed: true,
            ..self
        }
    }

    /// The declaration is complete; the first one counts.
    pub fn completed(self, declaration: DeclarationId) -> Slot
        ensures { result ≡ bindings.completed self declaration }
    {
        Slot {
            known: Some(self.known.unwrap_or(declaration)),
            ..self
        }
    }

    /// The declaration is this one, whichever it was.
    pub fn retold(self, declaration: DeclarationId) -> Slot
        ensures { result ≡ bindings.retold self declaration }
    {
        Slot {
            known: Some(declaration),
            ..self
        }
    }

    /// The name stands before, and its declaration is complete unless the name stood before already.
    pub fn declared(self, declaration: DeclarationId) -> Slot
        ensures { result ≡ bindings.declared self declaration }
    {
        if self.passed {
            self
        } else {
            self.completed(declaration).passed()
        }
    }

    /// What the name means in the block; `Unbound` where that is decided by the blocks around.
    pub fn bound(self) -> Bound
        ensures { result ≡ bindings.bound_or self Bound.Unbound }
    {
        match (self.known, self.class) {
            (Some(declaration), _) => Bound::Here(declaration),
            (None, Some(class)) => Bound::Later(class),
            (None, None) => Bound::Unbound,
        }
    }
}
