//! Heads of statements: what one step of a program needs. So far types alone, as they stand in heads.
//!
//! Start at `Ty`.
#![tactic(auto)]

mod copy;
mod ty;

pub use copy::copy_names;
pub use ty::Ty;
