//! Parameters of a routine.

use pc_names::{DeclarationId, NameId};

/// A parameter of a routine: its name, and its declaration, each by its number.
#[derive(Clone, Copy, Debug, PartialEq, Eq)]
pub struct Parameter {
    pub name: NameId,
    pub declaration: DeclarationId,
}
