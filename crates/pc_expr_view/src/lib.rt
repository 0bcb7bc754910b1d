//! The text of the view `expr`: the types of the parts of an expression.
//!
//! Start at `expr_view`. Its meaning is `expr_text` of `pc_decl`; the types that it needs are `types_at` of `specs/PartTypes`.
#![tactic(auto)]

mod known;
mod line;
mod lines;
mod told;
mod view;
mod words;

pub use view::expr_view;
