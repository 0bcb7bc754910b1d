//! What a name means at a place.

use crate::builtin::Builtin;
use crate::decl::Decl;

/// What a name means at a place: a declaration that stands before it; one that stands later, or is a constant or type
/// definition in which the place stands; a required name; or nothing.
#[derive(Clone, Copy)]
pub enum Found<'a> {
    Here(&'a Decl),
    Later(&'a Decl),
    Required(Builtin),
    Missing,
}
