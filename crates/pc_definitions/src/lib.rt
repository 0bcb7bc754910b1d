//! The definitions of constants and types, and the declarations of variables, of a block, gone through.
//!
//! Start at `constant_definitions`. Each function goes through one node of a definition part and says what is found at it; behind it the
//! tables of `pc_places` stand for the place behind the node.
#![tactic(auto)]

mod constants;
mod denoted;
mod naming;
mod rows;
mod types;
mod variables;

pub use constants::{constant_definition, constant_definitions};
pub use denoted::definition;
pub use naming::{Naming, enter, leave};
pub use rows::{declaration, second_name};
pub use types::{before_at, next, type_definition, type_definitions};
pub use variables::{Variables, enter_variables};
