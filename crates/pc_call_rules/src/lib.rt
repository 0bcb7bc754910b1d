//! The rules of function calls and procedure statements (ISO 7185, 6.6.3, 6.6.5, 6.6.6, 6.7.3, 6.8.2.3, 6.9), over facts by
//! numbers.
#![tactic(auto)]

mod calls;
mod declared;
mod functions;
mod lists;
mod notes;
mod passing;
mod procedures;
mod purpose;
mod required;

pub use calls::{call, procedure, required_procedure};
pub use declared::{declared_call, declared_procedure};
pub use functions::{end_test, function_of_one, required_call};
pub use lists::{any_hole, arguments_typed, passed_by_place};
pub use passing::{argument, arguments};
pub use procedures::{input_procedure, output_procedure, pointer_procedure};
pub use purpose::{Purpose, argument_for};
