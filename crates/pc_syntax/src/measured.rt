//! The numbers of a tree with another node at a path, before it is made.

ghost use Rattle.std.specs.Prelude.{◌≡◌, ◌<◌, ◌≤◌, IfSome, length};
ghost use Rattle.pc_syntax.specs.Plain.{Plain, kids_of};
ghost use Rattle.pc_syntax.specs.Places.{with_kid};
ghost use Rattle.pc_syntax.specs.Measured.{level_count, node_count, CountsWith, levels_with_kid, levels_with, nodes_with};

use crate::outline::deepest_with;
use crate::path::Path;
use crate::tree::Tree;

impl Tree {
    /// How many levels the whole tree would have with a piece of so many levels in the place of the node at a path, if there
    /// is such a node. A number that is too large for its type is the type's last, and so is that of the piece.
    pub fn depth_with(&self, path: &Path, depth: u32) -> Option<u32>
        ensures value { result ≡ levels_with path.now self.now depth }
        ensures counts { CountsWith level_count self.now path.now depth result }
        ensures no_fewer { IfSome result (λ whole. depth ≤ whole) }
    {
        depth_at(self, path.steps(), depth)
    }

    /// How many nodes the whole tree would have with a piece of so many nodes in the place of the node at a path, if there is
    /// such a node. A number that is too large for its type is the type's last, and so is that of the piece.
    pub fn size_with(&self, path: &Path, size: u64) -> Option<u64>
        ensures value { result ≡ nodes_with path.now self.now size }
        ensures counts { CountsWith node_count self.now path.now size result }
        ensures no_fewer { IfSome result (λ whole. size ≤ whole) }
    {
        let old = self.at(path)?;
        let others = self.size() - old.size();
        Some(others.saturating_add(size))
    }
}

/// How many levels a tree would have with so many at the node with this path, if there is such a node.
fn depth_at(tree: &Tree, steps: &[u32], depth: u32) -> Option<u32>
    ensures value { result ≡ levels_with steps.now tree.now depth }
    ensures counts { CountsWith level_count tree.now steps.now depth result }
    ensures no_fewer { IfSome result (λ whole. depth ≤ whole) }
{
    let Some((step, rest)) = steps.split_first() else {
        return Some(depth);
    };
    let kid = tree.kid(*step)?;
    let below = depth_at(kid, rest, depth)?;
    Some(depth_with_kid(tree, *step as usize - 1, below))
}

/// How many levels a tree would have with so many at its kid `i`, counted from 0.
fn depth_with_kid(tree: &Tree, i: usize, depth: u32) -> u32
    requires { i < length (kids_of tree.now) }
    ensures value { result ≡ levels_with_kid tree.now i depth }
    ensures counts { (q : Plain) → depth ≡ level_count q → result ≡ level_count (with_kid tree.now i q) }
    ensures no_fewer { depth ≤ result }
{
    deepest_with(tree.kid_slice(), i, depth).saturating_add(1)
}
