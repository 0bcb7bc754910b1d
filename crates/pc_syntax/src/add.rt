//! Adding an element to a list.

ghost use Rattle.std.specs.Prelude.{◌≡◌, ◌≤◌, Some, IfOk, length};
ghost use Rattle.pc_syntax.specs.Plain.{kids_of};
ghost use Rattle.pc_syntax.specs.WellFormed.{IsProper};
ghost use Rattle.pc_syntax.specs.Places.{at, put};
ghost use Rattle.pc_syntax.specs.Edits.{has_room, with_more, AddAnswers};

use crate::error::EditError;
use crate::outline::Outline;
use crate::path::Path;
use crate::place::copies;
use crate::tree::Tree;
use std::alloc::{AllocError, Global};

impl Tree {
    /// Whether an element with the number `k`, from 1, can come to it: it is a list, and `k` is at most one more than its length.
    pub fn has_room(&self, k: u32) -> bool
        ensures { result ≡ has_room self.now k }
    {
        self.kind().is_list() && 1 <= k && k as usize <= self.kid_slice().len() + 1
    }

    /// The whole tree with the piece as element `k`, from 1, of the list at a path; the elements from there on stand behind
    /// it. It shares all other nodes that are not on the path.
    ///
    /// `NoPlace` where the path names no list, or `k` isn't from 1 to one more than its length. `NotFit` where the grammar
    /// has no such tree. `TooDeep` and `TooLarge` have the numbers of the whole new tree.
    pub fn add(&self, alloc: Global, path: &Path, k: u32, piece: &Tree) -> Result<Tree, EditError>
        ensures { AddAnswers self.now path.now k piece.now result }
    {
        let Some(list) = self.at(path) else {
            return Err(EditError::NoPlace);
        };
        if !list.has_room(k) {
            return Err(EditError::NoPlace);
        }
        let new = Outline::with_more(list, piece);
        let Some(outline) = Outline::of_put(self, path.steps(), new) else {
            return Err(EditError::NoPlace);
        };
        if let Err(error) = outline.admit() {
            return Err(error);
        }
        let Ok(tree) = self.with_element(alloc, path.steps(), list, k as usize - 1, piece) else {
            return Err(EditError::NoMemory);
        };
        Ok(tree)
    }

    /// The whole tree with the piece at `i`, counted from 0, in the list at a path.
    fn with_element(
        &self,
        alloc: Global,
        steps: &[u32],
        list: &Tree,
        i: usize,
        piece: &Tree,
    ) -> Result<Tree, AllocError>
        requires place { at steps.now self.now ≡ Some list.now }
        requires in_bounds { i ≤ length (kids_of list.now) }
        requires proper { IsProper (put steps.now self.now (with_more list.now i piece.now)) }
        ensures { IfOk result (λ tree. tree ≡ put steps.now self.now (with_more list.now i piece.now)) }
    {
        let text = list.text()?;
        let mut kids = copies(alloc, list.kid_slice())?;
        kids.insert(i, piece.copy()?)?;
        let new = Tree::of_text(alloc, list.kind(), text, kids)?;
        self.with_node(alloc, steps, new)
    }
}
