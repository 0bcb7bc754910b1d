//! What a routine needs from the rest of its program: the names that it uses, each with what it means there (ISO 7185, 6.2.2).
//!
//! Read `UsedNames`, `Answers` and `Needs` of `specs/`, then `Unaffected`, which says when a change of the program doesn't affect a routine,
//! and `Bodies`, which says so of a routine without a key.
#![tactic(auto)]

mod laws;

pub use laws::{
    elsewhere_stays, forward_gives, frames_keep_routines, inside_touch, keys_name_one,
    needs_decide, places_decide, places_name_one,
};
