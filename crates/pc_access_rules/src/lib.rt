//! The rules of variables (ISO 7185, 6.5), over facts by numbers: names alone, indexed variables, fields, and what pointers lead to.
//!
//! Start at `index`.
#![tactic(auto)]

mod dereferenced;
mod indexed;
mod meanings;
mod referenced;
mod selected;
mod tests;

pub use dereferenced::dereference;
pub use indexed::index;
pub use meanings::{value_type, variable_of, variable_type};
pub use referenced::reference;
pub use selected::select;
