//! Nodes by the way to them, and trees with one node changed.

ghost use Rattle.std.specs.Prelude.{◌≡◌, ◌<◌, Some, IsSome, IfOk, length};
ghost use Rattle.std.specs.Option.{option_copied};
ghost use Rattle.pc_syntax.specs.Plain.{kids_of};
ghost use Rattle.pc_syntax.specs.WellFormed.{IsProper};
ghost use Rattle.pc_syntax.specs.Places.{at, with_kid, put};

use crate::path::Path;
use crate::tree::Tree;
use std::alloc::{AllocError, Global};

impl Tree {
    /// The node at a path, if there is one.
    pub fn at(&self, path: &Path) -> Option<&Tree>
        ensures { option_copied result ≡ at path.now self.now }
    {
        let mut node = self;
        for step in path.steps() {
            node = node.kid(*step)?;
        }
        Some(node)
    }

    /// The tree with another node at a path. It shares all other nodes that are not on the path.
    pub(crate) fn with_node(
        &self,
        alloc: Global,
        steps: &[u32],
        piece: Tree,
    ) -> Result<Tree, AllocError>
        requires place { IsSome (at steps.now self.now) }
        requires proper { IsProper (put steps.now self.now piece) }
        ensures { IfOk result (λ tree. tree ≡ put steps.now self.now piece) }
    {
        let Some((step, rest)) = steps.split_first() else {
            return Ok(piece);
        };
        let Some(kid) = self.kid(*step) else {
            unreachable!()
        };
        let new = kid.with_node(alloc, rest, piece)?;
        self.with_kid(alloc, *step as usize - 1, new)
    }

    /// The tree with another kid at `i`, counted from 0.
    pub(crate) fn with_kid(&self, alloc: Global, i: usize, kid: Tree) -> Result<Tree, AllocError>
        requires in_bounds { i < length (kids_of self.now) }
        requires proper { IsProper (with_kid self.now i kid) }
        ensures { IfOk result (λ tree. tree ≡ with_kid self.now i kid) }
    {
        let text = self.text()?;
        let mut kids = copies(alloc, self.kid_slice())?;
        kids[i] = kid;
        Tree::of_text(alloc, self.kind(), text, kids)
    }
}

/// These trees again, which share all their nodes.
pub fn copies(alloc: Global, trees: &[Tree]) -> Result<Vec<Tree>, AllocError>
    ensures { IfOk result (λ all. all.items ≡ trees.now) }
{
    let mut all = Vec::with_capacity(alloc, trees.len())?;
    for tree in trees {
        all.push(tree.copy()?)?;
    }
    Ok(all)
}
