//! What is found at the statements of a statement part, by numbers.
//!
//! Start at `statement`. When what it answers is what the rules find says `Resolved` of `pc_bodies`; `Walked` of `specs/` says the
//! same of the calls within, which keep an index of the log of variables.
#![tactic(auto)]

mod accesses;
mod arms;
mod constants;
mod controls;
mod noting;
mod rows;
mod simple;
mod statements;

pub use statements::statement;
