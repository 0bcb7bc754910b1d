//! The names of a program, numbered without regard to case, and what is bound to each of them in each block.
//!
//! Start at `Names`. What it is seen as stands in `Table` of `specs/`, what a block has of a name in `Bindings`, and what a name
//! means from a block outwards in `Chains`; `Standing` says when a block of the table stands for a place of the rules.
#![tactic(auto)]

mod blocks;
mod bound;
mod id;
mod name_class;
mod names;
mod slot;
mod slots;
mod texts;

pub use bound::Bound;
pub use id::{BlockId, DeclarationId, NameId};
pub use name_class::NameClass;
pub use names::Names;
pub use slot::Slot;
