//! The views of names and types: the errors of a program, what it declares, where its names are used, and the types of an
//! expression's parts; what a used name means, and the type at a place.
//!
//! Read `Annotated` of `specs/`, then `Roles` and `Meant`, then the texts, of which `TypeText` comes first. Code stands so far on the
//! pages that speak of texts alone: `errors_view`, and the texts of types, paths and keys, which the other views will show.
#![tactic(auto)]

mod constant_text;
mod errors;
mod operand_pieces;
mod operand_text;
mod shown;
mod type_pieces;
mod type_text;

pub use errors::errors_view;
pub use operand_text::push_operand;
pub use shown::{push_key, push_owner, push_path};
pub use type_text::{push_known, push_type};
