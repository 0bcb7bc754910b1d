//! What is found at the nodes of a program: names, types, constants and entries of the error list, by their numbers.
//!
//! Start at `Facts`, what is found at one node. What it stands for in the rules (`Attributes` of `pc_rules`) says `Shows` of
//! `specs/`.
#![tactic(auto)]

mod entries;
mod facts;
mod judged;
mod sighting;
mod tests;

pub use entries::{add_kid, add_note, add_note_if};
pub use facts::{Argument, Arm, Facts, Member};
pub use judged::{Judged, Judgement};
pub use sighting::{
    Constant, Declared, Formal, Named, Sighting, Signature, SignatureId, TextId, Value, Variable,
};
pub use tests::{both, either, is_known, is_unknown};
