//! What pointers lead to in a statement part (ISO 7185, 6.4.4, 6.5.4), for code that has one table of domains for a whole program.
//!
//! Read `Good` of `specs/`: when the pointers of a type lead to what one table of domains says, and when those of all types that are
//! found at a node do. The pages of laws say that the rules keep this from node to node.
#![tactic(auto)]

mod laws;

pub use laws::{parts_agree, pointers_agree};
