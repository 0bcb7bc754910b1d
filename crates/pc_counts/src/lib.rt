//! How often names stood before in a block, where the types of one name are told apart by that.
//!
//! Start at `Counts`; what its numbers are says `AreCounted` of `specs/Counting.antt`.
#![tactic(auto)]

mod before;
mod counting;
mod counts;
mod parameters;
mod parts;

pub use counts::Counts;
