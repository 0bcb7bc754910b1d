//! What is found at a denoter of a type, by numbers (ISO 7185, 6.4).
//!
//! Start at `denoter`. When what it answers is what the rules find, and for which place the tables stand behind it, says `Places` of
//! `pc_places`.
#![tactic(auto)]

mod definitions;
mod denoters;
mod domains;
mod enumerations;
mod fields;
mod lists;
mod names;
mod simple;

pub use denoters::denoter;
