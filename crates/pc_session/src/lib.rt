//! A session: the program as a tree, with undo and redo, and what each command does to it.
//!
//! Start at `Session`. What a command may answer, and the session that it leaves, is said in
//! `specs/Commands.antt`; `specs/Trees.antt` says what undo and redo are, `specs/Editing.antt` what
//! an edit makes of a program, and `specs/Loading.antt` which program a text writes.
#![tactic(auto)]

mod accepted;
mod declarations;
mod editing;
mod error_list;
mod history;
mod laws;
mod load;
mod made;
mod measuring;
mod session;

pub use accepted::Accepted;
pub use laws::{
    one_add, one_answer, one_cut, one_fill, one_load, one_put, one_redo, one_retype, one_show,
    one_undo, undo_and_redo,
};
pub use session::Session;
