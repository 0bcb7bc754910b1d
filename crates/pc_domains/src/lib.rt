//! The domains of pointer types get their types behind the type parts of blocks, and types that lead to something unknown lose theirs.
//!
//! Start at `Domains`. What it keeps says what some targets say where `IsTold` of `specs/Told.antt` holds.
#![tactic(auto)]

mod by_name;
mod declared;
mod domains;
mod entering;
mod naming;
mod owners;
mod rows;
mod sifting;

pub use domains::Domains;
