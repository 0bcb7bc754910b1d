//! Names that are used (ISO 7185, 6.2.2.9), over facts by numbers: what a use allows, and the entries where a name is not declared,
//! stands too early, or is declared as something else.
//!
//! Start at `add_name_entries`. What a use allows says `Uses` of `specs/`.
#![tactic(auto)]

mod allowed;
mod classes;
mod entries;
mod required;

pub use allowed::{Allowed, is_used_as};
pub use classes::{
    is_constant_class, is_function_class, is_own_variable, is_procedure_class, is_reference_class,
    is_type_class, is_value_class, is_variable_class,
};
pub use entries::{add_name_entries, add_value_entries, add_variable_entries};
pub use required::{
    is_end_test, is_required_constant, is_required_function, is_required_procedure,
    is_required_type, is_required_value,
};
