//! What the rules of expressions and statements judge of types by their numbers (ISO 7185, 6.4 to 6.9): the types of operators, of
//! set constructors, of required functions and of components; what may be read, written, compared and assigned.
//!
//! Start at `multiplied`. Each function answers the definition of `pc_rules` that its clause names, or that of `Judged` of `specs/`,
//! over types by their numbers; `None` is a type that is not known. None takes memory, and none has a condition.
#![tactic(auto)]

mod arguments;
mod components;
mod operators;
mod required;
mod set_constructors;
mod tests;

pub use arguments::{differs, is_unassignable};
pub use components::{component_of, field_type, index_of, packed_type};
pub use operators::{added, compared, is_related, multiplied};
pub use required::{can_be_read, can_be_written, function_result, is_integer_ordinal};
pub use set_constructors::{member_type, set_of};
pub use tests::{is_base_too_large, is_incompatible, is_no_ordinal, is_not_simple};
