//! Reading a program again after a part of its text was replaced.
//!
//! Start at `retype`. Its meaning is `Retypes` of `specs/Retyping.antt`.
#![tactic(auto)]

mod error;
mod retyping;

pub use error::RetypeError;
pub use retyping::retype;
