//! Laws: the tables of a program, as the declarations of a block left them, stand for its statement part.
//!
//! Start at `BodyLaw` of `specs/Standing`.
#![tactic(auto)]

mod laws;

pub use laws::{declarations_stand_for_bodies, routines_are_of_their_block};
