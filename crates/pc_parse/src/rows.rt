//! What is kept of trees while a text is read: how deep and how large they are, and themselves
//! where they are within the limits. So a text of any depth and size is measured, and no tree is
//! made that is not within the limits.

ghost use Rattle.std.specs.Prelude.{◌≡◌, ◌+◌, IfOk, [], IfSome};
ghost use Rattle.pc_syntax.specs.Plain.{node};
ghost use Rattle.pc_syntax.specs.WellFormed.{IsProper};
ghost use Rattle.pc_parse.specs.Rows.{is_within, no_kids, has_kids, made, added, joined};
ghost use Rattle.pc_parse.specs.Views.{row_view, trees_view};

use crate::leaves::Leaves;
use pc_syntax::{Kind, Tree, depth_limit, size_limit};
use std::alloc::{AllocError, Global};

/// A tree as it is kept: its depth and its size, each as the last value of its type where it
/// passes that, and the tree itself where it is within the limits.
#[derive(Drop)]
pub struct Cut {
    pub depth: u32,
    pub size: u64,
    pub tree: Option<Tree>,
}

/// The kids of a node as they are kept: the depth of the deepest, the size of all, and the trees
/// where a node of them is within the limits.
#[derive(Drop)]
pub struct Row {
    depth: u32,
    size: u64,
    trees: Option<Vec<Tree>>,
}

/// A node whose kids are there.
#[derive(Drop)]
pub struct Node<'a> {
    pub kind: Kind,
    pub word: &'a [u8],
    pub kids: Row,
}

impl Row {
    /// No kids.
    pub fn none(alloc: Global) -> Row
        ensures { row_view result ≡ no_kids }
    {
        Row {
            depth: 0,
            size: 0,
            trees: Some(Vec::new(alloc)),
        }
    }

    /// Whether there are kids.
    pub fn has_kids(&self) -> bool
        ensures { result ≡ has_kids (row_view self.now) }
    {
        self.size != 0
    }

    /// One kid more.
    pub fn with(self, kid: Cut) -> Result<Row, AllocError>
        ensures { IfOk result (λ row. row_view row ≡ added (row_view self) kid) }
    {
        let depth = self.depth.max(kid.depth);
        let size = self.size.saturating_add(kid.size);
        let trees = join(is_within(depth, size), self.trees, kid.tree)?;
        Ok(Row { depth, size, trees })
    }
}

/// The trees with one more, where they are kept.
fn join(
    kept: bool,
    trees: Option<Vec<Tree>>,
    tree: Option<Tree>,
) -> Result<Option<Vec<Tree>>, AllocError>
    ensures { IfOk result (λ all. trees_view all ≡ joined kept (trees_view trees) tree) }
{
    if !kept {
        return Ok(None);
    }
    let Some(mut trees) = trees else {
        return Ok(None);
    };
    let Some(tree) = tree else {
        return Ok(None);
    };
    trees.push(tree)?;
    Ok(Some(trees))
}

/// Whether a node over kids of this depth and this size is within the limits.
fn is_within(depth: u32, size: u64) -> bool
    ensures { result ≡ is_within (depth + 1) (size + 1) }
{
    depth < depth_limit() && size < size_limit()
}

impl<'a> Node<'a> {
    /// A node without kids.
    pub fn bare(alloc: Global, kind: Kind, word: &'a [u8]) -> Node<'a>
        ensures { (result.kind ≡ kind) × (result.word.now ≡ word.now) × (row_view result.kids ≡ no_kids) }
    {
        Node {
            kind,
            word,
            kids: Row::none(alloc),
        }
    }

    /// The node as it is kept.
    pub fn cut(self, alloc: Global, leaves: &mut Leaves) -> Result<Cut, AllocError>
        requires { IfSome (trees_view self.kids.trees) (λ trees. IsProper (node self.kind self.word.now [] trees)) }
        ensures { IfOk result (λ cut. cut ≡ made self.entry.kind self.entry.word.now (row_view self.entry.kids)) }
    {
        let Node { kind, word, kids } = self;
        let Row { depth, size, trees } = kids;
        let tree = match trees {
            Some(trees) => Some(tree_of(alloc, leaves, kind, word, trees)?),
            None => None,
        };
        Ok(Cut {
            depth: depth.saturating_add(1),
            size: size.saturating_add(1),
            tree,
        })
    }
}

/// The node of these kids. A leaf may be one that was made before.
fn tree_of(
    alloc: Global,
    leaves: &mut Leaves,
    kind: Kind,
    word: &[u8],
    kids: Vec<Tree>,
) -> Result<Tree, AllocError>
    requires { IsProper (node kind word.now [] kids.items) }
    ensures { IfOk result (λ tree. tree ≡ node kind word.now [] kids.items) }
{
    if kids.is_empty() {
        let leaf = leaves.leaf(alloc, kind, word)?;
        return Ok(leaf);
    }
    let tree = Tree::of_proper(alloc, kind, word, kids)?;
    Ok(tree)
}
