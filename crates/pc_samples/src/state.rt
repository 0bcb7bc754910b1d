//! What the cases of a section share.

use crate::trouble::Trouble;
use pc_session::Session;
use pc_syntax::{Sort, Tree, hole};
use std::alloc::Global;

/// A section begins with a tree that is the hole `?program`, and a session at its start.
#[derive(Drop)]
pub struct State {
    pub tree: Tree,
    pub session: Session,
}

impl State {
    pub fn new(alloc: Global) -> Result<State, Trouble> {
        Ok(State {
            tree: hole(alloc, Sort::Program)?,
            session: Session::new(alloc)?,
        })
    }
}
