//! What a used name means at a place of a statement part, from the tables of names and types (ISO 7185, 6.2.2).
//!
//! Start at `find`. What it answers stands for what the rules find (`Found` of `pc_rules`), as `Meeting` of `specs/` says; the fields
//! of the records that the `with` statements around have opened are on a stack (`Opened`). `Touched` keeps which variables a
//! statement part touches.
#![tactic(auto)]

mod finding;
mod met;
mod opened;
mod touched;

pub use finding::find;
pub use met::Met;
pub use opened::{field_at, open};
pub use touched::Touched;
