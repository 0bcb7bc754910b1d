//! Cutting a node.

ghost use Rattle.std.specs.Prelude.{◌≡◌, ◌<◌, IsSome, IfOk, length};
ghost use Rattle.pc_syntax.specs.Plain.{kids_of};
ghost use Rattle.pc_syntax.specs.WellFormed.{IsProper};
ghost use Rattle.pc_syntax.specs.Places.{at};
ghost use Rattle.pc_syntax.specs.Edits.{without_kid, cut_kid, cut, CutAnswers};

use crate::blank::blank;
use crate::class::Class;
use crate::error::EditError;
use crate::path::Path;
use crate::place::copies;
use crate::tree::Tree;
use std::alloc::{AllocError, Global};

impl Tree {
    /// The whole tree without the node at a path. It shares all other nodes that are not on the path.
    ///
    /// An element of a list that is longer than it must be is removed. A list becomes empty, or one hole where it may not
    /// be empty, and every other node the hole of its place's sort. A list of definitions that becomes empty loses its
    /// notes. `NoPlace` where there is no such node; never `NotFit`, `TooDeep` or `TooLarge`.
    pub fn cut(&self, alloc: Global, path: &Path) -> Result<Tree, EditError>
        ensures { CutAnswers self.now path.now result }
    {
        if self.at(path).is_none() {
            return Err(EditError::NoPlace);
        }
        match self.cut_at(alloc, path.steps()) {
            Ok(tree) => Ok(tree),
            Err(_) => Err(EditError::NoMemory),
        }
    }

    fn cut_at(&self, alloc: Global, steps: &[u32]) -> Result<Tree, AllocError>
        requires { IsSome (at steps.now self.now) }
        ensures { IfOk result (λ tree. tree ≡ cut steps.now self.now) }
    {
        let Some((step, rest)) = steps.split_first() else {
            return blank(alloc, Class::Program);
        };
        let Some(kid) = self.kid(*step) else {
            unreachable!()
        };
        let i = *step as usize - 1;
        if rest.is_empty() {
            return self.cut_kid(alloc, i);
        }
        let new = kid.cut_at(alloc, rest)?;
        self.with_kid(alloc, i, new)
    }

    /// The node without its kid at `i`, counted from 0.
    fn cut_kid(&self, alloc: Global, i: usize) -> Result<Tree, AllocError>
        requires { i < length (kids_of self.now) }
        ensures { IfOk result (λ tree. tree ≡ cut_kid self.now i) }
    {
        let kind = self.kind();
        let slots = kind.slots();
        if slots.list && (slots.count as usize) < self.kid_slice().len() {
            return self.without_kid(alloc, i);
        }
        match kind.class_from(i) {
            Some(class) => {
                let new = blank(alloc, class)?;
                self.with_kid(alloc, i, new)
            }
            None => self.copy(),
        }
    }

    /// The list without its element at `i`, counted from 0.
    fn without_kid(&self, alloc: Global, i: usize) -> Result<Tree, AllocError>
        requires in_bounds { i < length (kids_of self.now) }
        requires proper { IsProper (without_kid self.now i) }
        ensures { IfOk result (λ tree. tree ≡ without_kid self.now i) }
    {
        if self.kid_slice().len() <= 1 {
            return Tree::of_proper(alloc, self.kind(), b"", Vec::new(alloc));
        }
        let text = self.text()?;
        let mut kids = copies(alloc, self.kid_slice())?;
        let _ = kids.remove(i);
        Tree::of_text(alloc, self.kind(), text, kids)
    }
}
