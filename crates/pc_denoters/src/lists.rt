//! What is found at the nodes of a list, together.

ghost use Rattle.std.specs.Prelude.{◌≡◌};
ghost use Rattle.pc_denoters.specs.Holes.{any_open};

use pc_facts::Facts;

/// Whether a hole stands in one of them.
pub(crate) fn any_hole(nodes: &[Facts]) -> bool
    ensures { result ≡ any_open nodes.now }
{
    let mut rest = nodes;
    while let [node, tail @ ..] = rest {
        if node.hole {
            return true;
        }
        rest = tail;
    }
    false
}
