//! Names, types and errors of a program (ISO 7185, 6.2 to 6.9), as definitions.
//!
//! Read `Meanings` and `Attributes` of `specs/`, then the rules of each topic, from `UsedNames` to `Declarations`, then `Decorated`, which puts
//! them together by the forms of nodes, and `Errors`, whose `errors_of` is the error list; the README has the order of all pages.
//! `Law` says what determines the errors of a routine.
#![tactic(auto)]

mod laws;

pub use laws::unaffected_routines;
