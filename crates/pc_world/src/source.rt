//! Where bytes come from.

ghost use Rattle.std.specs.Prelude.{ℕ, ◌<◌, List, Option, length};
ghost use Rattle.std.specs.Io.{ReadsAtMost};
ghost use Rattle.std.specs.Io.KnownBytes.{ReadConsumes};
ghost use Rattle.pc_world.specs.Causes.{HasCause};

use thiserror::Error;

/// A read, a write or a flush failed, and the object's count of faults rose.
#[derive(Clone, Copy, Debug, PartialEq, Eq, Error)]
#[error("failed")]
pub struct Failed;

/// Bytes come from here, until they end.
pub trait Source {
    /// The bytes that are left, where the source tells them.
    ghost left: { Self → Option (List ℕ) };

    /// How often it failed, a number of 64 bits.
    ghost faults: { Self → ℕ };

    /// Moves a front of what is left into the front of `into`, which is not empty, and answers how
    /// many bytes: 0 exactly where nothing is left. A failed read takes nothing.
    fn read(&mut self, into: &mut [u8]) -> Result<usize, Failed>
        requires { 0 < length into.old }
        ensures bound { ReadsAtMost result into.new }
        ensures bytes { ReadConsumes (left self.old) (left self.new) result into.new }
        ensures cause { HasCause (faults self.old) (faults self.new) result };
}
