//! The layout of a node: what it is made of, item by item, as reading and printing walk over it.
//!
//! Start at `node_items`. Its meaning is `layout` of `pc_syntax`.
#![tactic(auto)]

mod items;
mod made;

pub use items::{Items, node_items};
