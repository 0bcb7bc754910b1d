//! Where files are kept.

ghost use Rattle.std.specs.Prelude.{◌⊎◌, ℕ, Option, IfOk, OnOk, IsErrOf};
ghost use Rattle.std.specs.Option.{option_map};
ghost use Rattle.pc_world.specs.Files.{Files, KeepsFiles, PutsFile, IsFileAt};

use std::alloc::Global;
use thiserror::Error;

/// Why a shelf did not do what it was asked for.
#[derive(Clone, Copy, Debug, PartialEq, Eq, Error)]
pub enum ShelfError {
    /// The shelf failed, and its count of faults rose.
    #[error("failed")]
    Failed,
    /// There was no memory for the answer or the file. It is no fault of the shelf.
    #[error("no memory")]
    NoMemory,
}

/// Files are kept here: bytes under names.
pub trait Shelf {
    ghost use Rattle.pc_world.specs.ShelfCauses.{ShelfHasCause};

    /// The files, where the shelf tells them.
    ghost files: { Self → Option Files };

    /// How often it failed, a number of 64 bits.
    ghost faults: { Self → ℕ };

    /// The bytes under a name, or none exactly where the name is absent. It changes no file.
    fn get(&mut self, alloc: Global, name: &str) -> Result<Option<Vec<u8>>, ShelfError>
        ensures answer { IfOk result (λ answer. IsFileAt (files self.old) name.now (option_map (λ v. v.items) answer)) }
        ensures same { KeepsFiles (files self.old) (files self.new) }
        ensures cause { ShelfHasCause (faults self.old) (faults self.new) result };

    /// Puts the bytes under a name, in place of those that stood there, and leaves all other names. A
    /// call that answers `Failed` may have put them; one that answers `NoMemory` has not.
    fn put(&mut self, alloc: Global, name: &str, bytes: &[u8]) -> Result<(), ShelfError>
        ensures ok { OnOk result (PutsFile (files self.old) (files self.new) name.now bytes.now) }
        ensures failed { IsErrOf result ShelfError.Failed → KeepsFiles (files self.old) (files self.new)
            ⊎ PutsFile (files self.old) (files self.new) name.now bytes.now }
        ensures no_memory { IsErrOf result ShelfError.NoMemory → KeepsFiles (files self.old) (files self.new) }
        ensures cause { ShelfHasCause (faults self.old) (faults self.new) result };
}
