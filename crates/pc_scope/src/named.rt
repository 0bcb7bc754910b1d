//! Names that are declared.

ghost use Rattle.std.specs.Prelude.{◌≡◌};
ghost use Rattle.pc_syntax.specs.Words.{lowered};

use pc_syntax::{Path, Word};

/// A name that is declared, in small letters; its place; and whether it is that of a constant or type definition.
#[derive(Drop)]
pub struct Named {
    pub name: Word,
    pub place: Path,
    pub is_definition: bool,
    ghost small: { lowered name ≡ name },
}
