//! Putting a piece in the place of a node.

ghost use Rattle.std.specs.Prelude.{◌≡◌};
ghost use Rattle.pc_syntax.specs.Edits.{gives_way, PutAnswers};

use crate::class::Class;
use crate::error::EditError;
use crate::kind::Kind;
use crate::outline::Outline;
use crate::path::Path;
use crate::tree::Tree;
use std::alloc::Global;

impl Tree {
    /// The whole tree with the node at a path replaced by the piece. It shares all other nodes that are not on the path.
    ///
    /// `NoPlace` where there is no such node. `NotFit` at every list node, at the root where the piece is no program, and
    /// where the grammar has no such tree. `TooDeep` and `TooLarge` have the numbers of the whole new tree.
    pub fn put(&self, alloc: Global, path: &Path, piece: &Tree) -> Result<Tree, EditError>
        ensures { PutAnswers self.now path.now piece.now result }
    {
        let Some(old) = self.at(path) else {
            return Err(EditError::NoPlace);
        };
        if !gives_way(path.steps(), old.kind(), piece.kind()) {
            return Err(EditError::NotFit);
        }
        let new = Outline::of_tree(piece);
        let Some(outline) = Outline::of_put(self, path.steps(), new) else {
            return Err(EditError::NoPlace);
        };
        if let Err(error) = outline.admit() {
            return Err(error);
        }
        let Ok(piece) = piece.copy() else {
            return Err(EditError::NoMemory);
        };
        let Ok(tree) = self.with_node(alloc, path.steps(), piece) else {
            return Err(EditError::NoMemory);
        };
        Ok(tree)
    }
}

/// Whether a node of the kind `before` at a path may give way to one of the kind `after`, its class aside.
fn gives_way(steps: &[u32], before: Kind, after: Kind) -> bool
    ensures { result ≡ gives_way steps.now before after }
{
    if steps.is_empty() && !Class::Program.has(after) {
        return false;
    }
    !before.is_list()
}
