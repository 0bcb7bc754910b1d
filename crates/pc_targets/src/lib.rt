//! What pointers lead to in a whole program (ISO 7185, 6.4.4): one table of targets, for which each of its blocks is good.
//!
//! Read `Program` of `specs/`: what each domain of a program is. Then `Blocks`: what holds of it.
#![tactic(auto)]

mod laws;

pub use laws::{blocks_see_the_same, each_block_is_good, targets_say_what_blocks_declare};
