//! The types of the expression at a place of a statement part, and of those below it, each in its role.
//!
//! Start at `told_types`. Which types these are says `Told` of `specs/`, and where the statement part stands `Place`.
#![tactic(auto)]

mod below;
mod down;
mod opening;
mod roles;
mod told;
mod wanted;

pub use told::told_types;
