//! What is kept of a routine and of the names that it declares.

use pc_facts::Sighting;
use pc_syntax::{Key, Kind, Word};
use pc_types::OwnerId;

/// A declared name in small letters, and the kind of the node that declares it.
#[derive(Drop)]
pub struct DeclaredName {
    pub name: Word,
    pub kind: Kind,
}

/// A name that a routine declares, in small letters; the kind of the node that declares it; and what the name means where the
/// routine's block ends.
#[derive(Drop)]
pub struct OwnName {
    pub name: Word,
    pub kind: Kind,
    pub meaning: Sighting,
}

/// A routine: its number as an owner, its key, if it has one, whether it is the later declaration of a forward one, and the names that
/// it declares, in text order, of equal ones the first alone.
#[derive(Drop)]
pub struct RoutineNames {
    pub owner: OwnerId,
    pub key: Option<Key>,
    pub is_later: bool,
    pub names: Vec<OwnName>,
}
