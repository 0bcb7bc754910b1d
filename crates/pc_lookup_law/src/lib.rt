//! In a whole program, what a name means by environment, and what it means by the places of declarations, is the same.
//!
//! `ProgramLaw` of `specs/` is the law; `ClassAt` says which class the declaration at a place has.
#![tactic(auto)]

mod law;

pub use law::lookups_agree_in_a_program;
