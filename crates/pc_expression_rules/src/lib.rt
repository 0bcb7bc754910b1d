//! The rules of expressions (ISO 7185, 6.7) and of constants (6.3), over facts by numbers.
//!
//! Start at `product`. Each public function is the rule of one kind of node: from the facts of its kids to those of the node.
#![tactic(auto)]

mod characters;
mod constant_facts;
mod constant_names;
mod constants;
mod members;
mod numerals;
mod operations;
mod operators;
mod primaries;
mod results;
mod sets;
mod signs;
mod strings;

pub use constant_names::constant_name;
pub use constants::{number_constant, string_constant};
pub use operations::{negation, parentheses, product, relation, signed, sum};
pub use operators::{one_operand, two_operands};
pub use primaries::{hole, nil, number, text};
pub use sets::set_constructor;
pub use signs::signed_constant;
