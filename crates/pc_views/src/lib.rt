//! The texts of views: what `show` answers.
//!
//! Start at `tree_view`. Its meaning is `tree_view` of `specs/TreeView.antt`; how large a text may be says `specs/Limit.antt`,
//! to which `limited` and `text_limit` hold every view.
#![tactic(auto)]

mod limit;
mod tree;

pub use limit::{limited, text_limit};
pub use tree::tree_view;
