//! Routines in which types are defined.

use pc_syntax::{Key, Path};

/// A routine by its key; one that has no key by its place, with the key of the nearest routine around it that has one.
#[derive(Drop)]
pub enum Owner {
    Keyed(Key),
    Placed(Path, Key),
}
