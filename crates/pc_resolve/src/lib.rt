//! The resolver: one pass over a program in text order, routine by routine; it answers the error list, or what the routines declare.
//!
//! Start at `errors`, or at `resolve`. What is found at the block of a routine says `ResolvesBlock` of `specs/Blocks.antt`.
#![tactic(auto)]

mod blocks;
mod entries;
mod error_list;
mod keeping;
mod numbers;
mod parts;
mod program;
mod resolver;
mod resolving;

pub use error_list::errors;
pub use resolving::{Resolved, resolve};
