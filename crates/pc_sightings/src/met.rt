//! What a used name was met as.

use pc_names::{DeclarationId, NameClass, NameId};
use pc_scope::Builtin;
use pc_types::Operand;

/// What a used name means: a declaration that stands before, by its number and that of the name; one that stands later; a field of
/// the record of a `with`, and whether the record is packed; a required name; or nothing.
#[derive(Clone, Copy, Debug, PartialEq, Eq)]
pub enum Met {
    Here(DeclarationId, NameId),
    Later(NameClass),
    Component(Operand, bool),
    Required(Builtin),
    Missing,
}
