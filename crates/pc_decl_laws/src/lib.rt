//! Laws of the view `decls`: what stands there of a name is known from its routine alone.
#![tactic(auto)]

mod laws;

pub use laws::{
    decls_come_routine_by_routine, kinds_come_with_declared_names,
    types_of_declared_names_are_their_own,
};
