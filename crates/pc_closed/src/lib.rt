//! What is reached from a type through pointers is all that is reached, and leads to what one table of domains says (ISO 7185, 6.4.4).
//!
//! Read `Reached` of `specs/`: what the walk from a shape finds. Then `Settled`: when the types of a block lead to what the targets say.
#![tactic(auto)]

mod laws;

pub use laws::{
    all_is_reached, blocks_hand_on, closed_types_agree, denoters_carry, outer_types_stay,
    types_go_together,
};
