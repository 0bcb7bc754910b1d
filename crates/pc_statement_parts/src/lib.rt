//! What is found at the statement part of a block, from the tables that its declarations left.
//!
//! Start at `statement_part`. Where a statement part stands says `Parts` of `specs/`, and how the variables that it touches are noted
//! `Noting`.
#![tactic(auto)]

mod noting;
mod parts;

pub use parts::statement_part;
