//! Making nodes.

ghost use Rattle.std.specs.Prelude.{◌≡◌, ◌+◌, ◌-◌, ◌^◌, ◌≤◌, min, [], map, sum_by, IfOk};
ghost use Rattle.pc_syntax.specs.declared.kind.Kind.TheVariants.{Hole};
ghost use Rattle.pc_syntax.specs.Plain.{Plain, forest_of, node};
ghost use Rattle.pc_syntax.specs.Make.{Admits, Answers};
ghost use Rattle.pc_syntax.specs.WellFormed.{size_of, depth_of, holes_of, opens, last_open, WellFormed, IsWellFormed, IsProper};
ghost use Rattle.pc_syntax.specs.Parts.{largest, hole_count};

use crate::error::EditError;
use crate::fits::node_fits;
use crate::kind::Kind;
use crate::limits::{depth_limit, size_limit};
use crate::note::Note;
use crate::sort::Sort;
use crate::text::Text;
use crate::tree::Tree;
use std::alloc::{AllocError, Global};

/// What a node keeps of its tree. A number that is too large for its type is the type's last.
#[derive(Clone, Copy)]
pub struct Counts {
    pub size: u64,
    pub depth: u32,
    pub holes: u64,
}

/// The counts of a node with these kids.
pub fn counts_of(kind: Kind, kids: &[Tree]) -> Counts
    ensures size { result.size ≡ min (1 + sum_by size_of kids.now) (2 ^ 64 - 1) }
    ensures depth { result.depth ≡ 1 + largest (map depth_of kids.now) }
    ensures holes { result.holes ≡ min (hole_count kind + sum_by holes_of kids.now) (2 ^ 64 - 1) }
    ensures fewer { hole_count kind + sum_by holes_of kids.now ≤ 1 + sum_by size_of kids.now }
    ensures sound { WellFormed (forest_of kids.now) }
{
    let mut size = 1u64;
    let mut depth = 0u32;
    let mut holes = u64::from(kind.is_hole());
    for kid in kids {
        size = size.saturating_add(kid.size());
        depth = depth.max(kid.depth());
        holes = holes.saturating_add(kid.holes());
    }
    Counts {
        size,
        depth: depth + 1,
        holes,
    }
}

/// Whether a node of this kind ends open, from whether its last kid does.
pub fn opens(kind: Kind, last: bool) -> bool
    ensures { result ≡ opens kind last }
{
    match kind {
        Kind::If => true,
        Kind::Ifelse | Kind::While | Kind::For | Kind::With => last,
        _ => false,
    }
}

/// Whether the last of these trees ends open.
pub fn is_last_open(trees: &[Tree]) -> bool
    ensures { result ≡ last_open (forest_of trees.now) }
{
    match trees.last() {
        Some(tree) => tree.is_open(),
        None => false,
    }
}

impl Counts {
    /// What keeps a well-formed tree with these counts from being made, if anything does.
    pub fn admit(&self) -> Result<(), EditError>
        ensures { (p : Plain) → IsWellFormed p → self.now.depth ≡ depth_of p → self.now.size ≡ min (size_of p) (2 ^ 64 - 1) → Admits p result }
    {
        if self.depth > depth_limit() {
            return Err(EditError::TooDeep(self.depth));
        }
        if self.size > size_limit() {
            return Err(EditError::TooLarge(self.size));
        }
        Ok(())
    }
}

/// What keeps a node with these parts from being made, if anything does.
fn admit(kind: Kind, word: &[u8], notes: &[Note], kids: &[Tree]) -> Result<(), EditError>
    ensures { Admits (node kind word.now notes.now kids.now) result }
{
    let counts = counts_of(kind, kids);
    if !node_fits(kind, word, notes, kids) {
        return Err(EditError::NotFit);
    }
    counts.admit()
}

impl Tree {
    /// The node with these parts. The word is empty where the node has none. `NotFit` where the grammar allows no
    /// such word, notes, number of kids or kid of that kind, or where an `else` would be that of another `if`.
    pub fn make(
        alloc: Global,
        kind: Kind,
        word: &[u8],
        notes: Vec<Note>,
        kids: Vec<Tree>,
    ) -> Result<Tree, EditError>
        ensures { Answers (node kind word.now notes.items kids.items) result }
    {
        if let Err(error) = admit(kind, word, &notes, &kids) {
            return Err(error);
        }
        let Ok(text) = Text::new(alloc, word, notes) else {
            return Err(EditError::NoMemory);
        };
        let Ok(tree) = Tree::of_text(alloc, kind, text, kids) else {
            return Err(EditError::NoMemory);
        };
        Ok(tree)
    }

    /// A node that is known to be well formed and within the limits, with no notes.
    pub fn of_proper(
        alloc: Global,
        kind: Kind,
        word: &[u8],
        kids: Vec<Tree>,
    ) -> Result<Tree, AllocError>
        requires { IsProper (node kind word.now [] kids.items) }
        ensures { IfOk result (λ tree. tree ≡ node kind word.now [] kids.items) }
    {
        let text = Text::new(alloc, word, Vec::new(alloc))?;
        Tree::of_text(alloc, kind, text, kids)
    }

    /// A node that is known to be well formed and within the limits, with notes.
    pub fn of_noted(
        alloc: Global,
        kind: Kind,
        word: &[u8],
        notes: Vec<Note>,
        kids: Vec<Tree>,
    ) -> Result<Tree, AllocError>
        requires { IsProper (node kind word.now notes.items kids.items) }
        ensures { IfOk result (λ tree. tree ≡ node kind word.now notes.items kids.items) }
    {
        let text = Text::new(alloc, word, notes)?;
        Tree::of_text(alloc, kind, text, kids)
    }
}

/// The hole of a sort.
pub fn hole(alloc: Global, sort: Sort) -> Result<Tree, AllocError>
    ensures { IfOk result (λ tree. tree ≡ node (Hole sort) [] [] []) }
{
    Tree::of_proper(alloc, Kind::Hole(sort), b"", Vec::new(alloc))
}
