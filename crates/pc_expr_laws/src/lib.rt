//! The law of the view `expr`: what is told of an expression is what the view shows of it.
#![tactic(auto)]

mod laws;

pub use laws::expressions_show_what_is_told;
