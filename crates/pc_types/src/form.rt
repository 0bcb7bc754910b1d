//! What a type is, with its parts by their numbers.

use pc_syntax::{Path, Word};
use sqlite_items::Items;

/// The number of a type. One number stands for one type: a required type, or a denoter of the program.
#[derive(Clone, Copy, Debug, PartialEq, Eq)]
pub struct TypeId(pub u32);

impl TypeId {
    pub const INTEGER: TypeId = TypeId(0);

    pub const BOOLEAN: TypeId = TypeId(1);

    pub const CHAR: TypeId = TypeId(2);

    /// The type of `nil`.
    pub const NIL: TypeId = TypeId(3);
}

/// The number of the domain of a pointer type.
#[derive(Clone, Copy, Debug, PartialEq, Eq)]
pub struct DomainId(pub u32);

/// The number of a routine in which types are defined.
#[derive(Clone, Copy, Debug, PartialEq, Eq)]
pub struct OwnerId(pub u32);

impl OwnerId {
    /// The program.
    pub const PROGRAM: OwnerId = OwnerId(0);
}

/// What a type is (ISO 7185, 6.4), with its parts by their numbers. A `bool` says whether the type is packed.
#[derive(Drop)]
pub enum Form {
    Integer,
    Boolean,
    Char,
    /// The type of `nil`.
    Nil,
    /// `(red, green)`: its constants in small letters.
    Named(Items<Word>),
    /// `1..9`: its host, its least and its largest ordinal.
    Subrange(TypeId, i64, i64),
    /// `array [index] of element`: its index type and the type of its elements.
    Array(bool, TypeId, TypeId),
    /// `record .. end`: its fields in order, each by its name in small letters.
    Record(bool, Items<(Word, TypeId)>),
    /// `set of base`.
    Set(bool, TypeId),
    /// A set constructor: the type of its first member, or that type's host; none for `[]`.
    Members(Option<TypeId>),
    /// A text of so many characters.
    Text(u32),
    /// `^name`: its domain.
    Pointer(DomainId),
}

/// Where a type is defined: in which routine; the type's name, or the first name that its variables declare, in small letters; how
/// many earlier denoters of the block bear that name; and the way to it inside the denoter.
#[derive(Drop)]
pub struct Definition {
    pub owner: OwnerId,
    pub name: Word,
    pub number: u32,
    pub inside: Path,
}
