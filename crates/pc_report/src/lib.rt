//! The error list in the making: entries noted while a tree is gone through, and then put in the order of the list.
//!
//! Start at `Report`. What an entry is, seen from a node and from the nodes above it, stands in `Attributes` and `Entries` of
//! `pc_rules`, and the order of the list in `Errors` there; a report is a `Noted` of `specs/Noted.antt`.
#![tactic(auto)]

mod entry;
mod order;
mod report;

pub use entry::ErrorEntry;
pub use order::put_in_order;
pub use report::Report;
