//! The declaration parts of a block, whole: its constants, types and variables are gone through, and its types are closed.
//!
//! Start at `declaration_parts`. What has to be known of a block beforehand says `BlockFacts` of `specs/Blocks.antt`.
#![tactic(auto)]

mod names;
mod numbers;
mod parts;
mod telling;
mod variables;

pub use parts::{Parts, declaration_parts};
pub use variables::{variable_declaration, variable_declarations};
