//! What is found at the nodes of a statement part, by numbers: at used names, at expressions, and at the
//! arguments of procedure statements; and which variables they touch.
//!
//! Start at `expression`. When what it answers is what the rules find says `Resolved` of `specs/`.
#![tactic(auto)]

mod body;
mod expressions;
mod names;
mod parts;

pub use body::{Body, Going};
pub use expressions::{argument, arguments, expression};
pub use names::used_name;
pub use parts::{function_signature, is_hole, procedure_signature, signature_at};
