//! Types as their structure alone (ISO 7185, 6.4).

use pc_syntax::Word;
use sqlite_items::{Boxed, Items};

/// The structure of a type, with all names expanded up to pointers. Contracts see it as plain data: a list where it has
/// `Items`, the value where it has `Boxed`, the bytes of a word.
#[derive(Drop)]
pub enum Ty {
    /// `integer`
    Int,
    /// `Boolean`
    Truth,
    /// `char`
    Letter,
    /// `(red, green)`: its constants in small letters.
    Named(Items<Word>),
    /// `1..9`: its host, its least and its largest ordinal.
    Sub(Boxed<Ty>, i64, i64),
    /// `array [index] of element`: whether it is packed, its index type and the type of its elements.
    Array(bool, Boxed<Ty>, Boxed<Ty>),
    /// `record .. end`: whether it is packed, and its fields in order, each by its name in small letters.
    Record(bool, Items<(Word, Ty)>),
    /// `set of base`: whether it is packed, and its base.
    Set(bool, Boxed<Ty>),
    /// `^name`: the key of the routine that declares its domain, as the names of that key, and the domain's name in small letters.
    Pointer(Items<Word>, Word),
}
