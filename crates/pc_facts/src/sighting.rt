//! What a used name means.

use pc_names::{NameClass, NameId};
use pc_scope::Builtin;
use pc_types::{Operand, OwnerId, TypeId};

/// The number of a string's characters in a table that the caller keeps.
#[derive(Clone, Copy, Debug, PartialEq, Eq)]
pub struct TextId(pub u32);

/// The number of a signature in a table that the caller keeps.
#[derive(Clone, Copy, Debug, PartialEq, Eq)]
pub struct SignatureId(pub u32);

/// What a constant stands for: the number of an ordinal value, or the characters of a string.
#[derive(Clone, Copy, Debug, PartialEq, Eq)]
pub enum Constant {
    Ordinal(i64),
    Chars(TextId),
}

/// A constant with its type.
#[derive(Clone, Copy, Debug, PartialEq, Eq)]
pub struct Value {
    pub of: Operand,
    pub constant: Constant,
}

/// A declaration: as what, in which block, under which name, and what goes with its class, where that has neither an error nor a
/// hole.
#[derive(Clone, Copy, Debug, PartialEq, Eq)]
pub struct Declared {
    pub class: NameClass,
    pub owner: OwnerId,
    pub name: NameId,
    pub value: Option<Value>,
    pub of: Option<Operand>,
    pub signature: Option<SignatureId>,
}

/// What a used name means: a declaration that stands before; one that stands later; a field of the record of a with, and whether the
/// record is packed; a required name; or nothing.
#[derive(Clone, Copy, Debug, PartialEq, Eq)]
pub enum Sighting {
    Here(Declared),
    Later(NameClass),
    Component(Operand, bool),
    Required(Builtin),
    Missing,
}

/// A variable of a variable declaration part: the block that declares it, and its name.
#[derive(Clone, Copy, Debug, PartialEq, Eq)]
pub struct Variable {
    pub owner: OwnerId,
    pub name: NameId,
}

/// A formal parameter: whether it is a variable parameter, and its type.
#[derive(Clone, Copy, Debug, PartialEq, Eq)]
pub struct Formal {
    pub name: NameId,
    pub by_place: bool,
    pub of: TypeId,
}

/// The formal parameters of a routine, and a function's result type.
#[derive(Drop)]
pub struct Signature {
    pub formals: Vec<Formal>,
    pub result: Option<TypeId>,
}

/// A used name, or a hole in its place, and what it means.
#[derive(Clone, Copy, Debug, PartialEq, Eq)]
pub struct Named {
    pub hole: bool,
    pub sighting: Sighting,
}
