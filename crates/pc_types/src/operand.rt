//! Types of expressions, and what their tests look at.

use crate::form::{DomainId, TypeId};

/// The type of an expression. Texts and set constructors have types that no denoter defines; they take no number of the table.
#[derive(Clone, Copy, Debug, PartialEq, Eq)]
pub enum Operand {
    /// A type of the table.
    Id(TypeId),
    /// The type of a text of so many characters, at least two.
    Text(u32),
    /// The type of a set constructor: the type of its first member, or that type's host.
    Members(TypeId),
    /// The type of `[]`.
    NoMembers,
}

/// What a type is, without its names: what tests of types look at.
#[derive(Clone, Copy, Debug, PartialEq, Eq)]
pub(crate) enum Outline {
    Integer,
    Boolean,
    Char,
    Nil,
    /// Its largest ordinal.
    Named(i64),
    Subrange(TypeId, i64, i64),
    Array(bool, TypeId, TypeId),
    /// Whether it is packed.
    Record(bool),
    Set(bool, TypeId),
    Members(TypeId),
    NoMembers,
    Text(u32),
    Pointer(DomainId),
}
