//! Where the block of a routine begins.

use pc_facts::Variable;
use pc_places::Parameter;
use pc_report::ErrorEntry;
use pc_syntax::{Key, Path};
use pc_types::OwnerId;

/// A routine whose own block is to be gone through: its number as an owner; its key, if it has one; the key of the nearest routine around
/// it that has one, which is its own if it has one; its place; whether it is the later declaration of a forward one; the function that
/// it is, as a variable, if it is one with a key; and its parameters.
#[derive(Drop)]
pub struct RoutineSite {
    pub owner: OwnerId,
    pub key: Option<Key>,
    pub near: Key,
    pub place: Path,
    pub is_later: bool,
    pub own_function: Option<Variable>,
    pub parameters: Vec<Parameter>,
}

/// What is found at a routine in the block around it: its entries there, those of its heading, both seen from its node, and where its own
/// block begins.
#[derive(Drop)]
pub struct RoutineFound {
    pub entries: Vec<ErrorEntry>,
    pub heading: Vec<ErrorEntry>,
    pub site: RoutineSite,
}
