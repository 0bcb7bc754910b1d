//! What a name means by environment, and what it means by the places of declarations, is the same.
//!
//! `BlockLaw` of `specs/` is the law; `Agreement` says when two look-ups agree, and which node a way leads to; `Orderly` which blocks it holds of.
#![tactic(auto)]

mod laws;

pub use laws::{lookups_agree_around_a_routine, lookups_agree_in_a_block, own_blocks_are_in_order};
