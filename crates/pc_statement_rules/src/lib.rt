//! The rules of statements (ISO 7185, 6.8), over facts by numbers.
//!
//! Start at `Handing`, a node that has what its kids have. Each other function makes the facts of one form of node from those of its
//! kids; its clause names the rule of `pc_rules`.
#![tactic(auto)]

mod accesses;
mod cases;
mod controls;
mod given;
mod kids;
mod loops;
mod own;
mod statements;

pub use accesses::{Opening, opened};
pub use cases::case;
pub use kids::{Handing, handed_on};
pub use loops::for_statement;
pub use statements::{assignment, condition, repetition};
