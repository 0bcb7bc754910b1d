//! Where a node stands among all nodes of a tree in preorder.

ghost use Rattle.std.specs.Prelude.{◌≡◌, ◌≤◌, option_map, length, take, sum_by};
ghost use Rattle.pc_syntax.specs.Plain.{kids_of};
ghost use Rattle.pc_syntax.specs.Places.{at};
ghost use Rattle.pc_syntax.specs.WellFormed.{size_of, IsProper};
ghost use Rattle.pc_pretty.specs.Preorder.{nodes_before};

use pc_syntax::{Path, Tree};

/// How many nodes stand before the node at a path in preorder. None where there is no such node.
pub fn nodes_before(tree: &Tree, path: &Path) -> Option<usize>
    ensures value { result ≡ option_map (λ _. nodes_before path.now tree.now) (at path.now tree.now) }
    ensures proper { IsProper tree.now }
{
    let _ = tree.size();
    let mut node = tree;
    let mut count = 0;
    for step in path.steps() {
        let kid = node.kid(*step)?;
        count += 1 + nodes_in(node, *step as usize - 1);
        node = kid;
    }
    Some(count)
}

/// How many nodes the first kids have, so many.
fn nodes_in(node: &Tree, kids: usize) -> usize
    requires { kids ≤ length (kids_of node.now) }
    ensures { result ≡ sum_by size_of (take kids (kids_of node.now)) }
{
    let all = node.kid_slice();
    let mut count = 0;
    for i in 0..kids {
        count += all[i].size() as usize;
    }
    count
}
