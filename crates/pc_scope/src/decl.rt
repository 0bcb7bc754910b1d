//! Declarations.

use pc_syntax::{Key, Path, Word};

/// A declaration: the key of the routine that declares, or of the nearest around it that has one; the name in small letters;
/// and the place of that name.
#[derive(Drop)]
pub struct Decl {
    pub owner: Key,
    pub name: Word,
    pub place: Path,
}
