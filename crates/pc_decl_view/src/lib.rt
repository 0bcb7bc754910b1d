//! The text of the view `decls`: what the routines of a program declare, from what was kept of each of them.
//!
//! Start at `decls_view`. `KeptLines` of `specs/` says which lines it writes, and its clause that they are the text of the view.
#![tactic(auto)]

mod class;
mod laters;
mod meaning;
mod names;
mod routine;
mod view;

pub use view::decls_view;
