//! What the names that a routine declares mean where its block ends, from the tables as they stand there; and the names of the parameters
//! that a later declaration has from its forward heading.
//!
//! Start at `own_names`; what it answers says `AtNames` of `specs/Found.antt`.
#![tactic(auto)]

mod finding;
mod given;
mod own;

pub use given::given_names;
pub use own::own_names;
