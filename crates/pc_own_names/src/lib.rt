//! The names that a routine declares in its heading and its own block, as `show decls` lists them.
//!
//! `declared_names` finds them in the routine's tree: `OwnKinds` of `specs/`. A program gone through gives each one its meaning, and
//! `ShowsNames` says when what was kept of a routine is what the rules find there.
#![tactic(auto)]

mod declaring;
mod noting;
mod own_name;
mod walking;

pub use declaring::declared_names;
pub use own_name::{DeclaredName, OwnName, RoutineNames};
