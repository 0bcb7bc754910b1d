//! Outlines: what decides whether a tree may be made, before any of its nodes is.

ghost use Rattle.std.specs.Prelude.{◌≡◌, ℕ, ◌+◌, ◌≤◌, ◌<◌, ◌&&◌, not, true, None, Some, IfSome, IsSomeAnd, MatchOption, slice_get, slice_set, map, length};
ghost use Rattle.pc_syntax.specs.Plain.{Plain, kids_of, forest_of};
ghost use Rattle.pc_syntax.specs.WellFormed.{size_of, depth_of, last_open, IsProper};
ghost use Rattle.pc_syntax.specs.Parts.{largest, is_open};
ghost use Rattle.pc_syntax.specs.Slots.{is_list, class_from};
ghost use Rattle.pc_syntax.specs.Fits.{takes};
ghost use Rattle.pc_syntax.specs.Make.{Admits};
ghost use Rattle.pc_syntax.specs.Places.{at, with_kid, put};
ghost use Rattle.pc_syntax.specs.Edits.{with_more};
ghost use Rattle.pc_syntax.specs.Opening.{breaks_else_rule_at};

use crate::error::EditError;
use crate::fits::takes;
use crate::kind::Kind;
use crate::make::{Counts, is_last_open, opens};
use crate::tree::Tree;

/// What decides whether a tree may be made.
#[derive(Clone, Copy)]
pub struct Outline {
    pub kind: Kind,
    pub fits: bool,
    pub is_open: bool,
    pub depth: u32,
    pub size: u64,
}

impl Outline {
    ghost use Rattle.pc_syntax.specs.Outline.{IsOutline};

    /// What keeps the tree from being made, if anything does.
    pub fn admit(self) -> Result<(), EditError>
        ensures { (p : Plain) → IsOutline self p → Admits p result }
    {
        if !self.fits {
            return Err(EditError::NotFit);
        }
        let counts = Counts {
            size: self.size,
            depth: self.depth,
            holes: 0,
        };
        counts.admit()
    }

    /// The outline of a tree.
    pub fn of_tree(tree: &Tree) -> Outline
        ensures outline { IsOutline result tree.now }
        ensures proper { IsProper tree.now }
    {
        Outline {
            kind: tree.kind(),
            fits: true,
            is_open: tree.is_open(),
            depth: tree.depth(),
            size: tree.size(),
        }
    }

    /// The outline of a list with a piece as another element, wherever that stands.
    pub fn with_more(list: &Tree, piece: &Tree) -> Outline
        requires { is_list list.now.kind ≡ true }
        ensures outline { (i : ℕ) → i ≤ length (kids_of list.now) → IsOutline result (with_more list.now i piece.now) }
        ensures shallow { result.depth ≤ 257 }
        ensures small { result.size ≤ 2000000 }
    {
        let kind = list.kind();
        Outline {
            kind,
            fits: takes(kind.class_from(0), piece.kind()),
            is_open: false,
            depth: list.depth().max(piece.depth() + 1),
            size: list.size() + piece.size(),
        }
    }

    /// The outline of a tree with another node at a path, which has this outline, if there is such a node.
    pub fn of_put(tree: &Tree, steps: &[u32], new: Outline) -> Option<Outline>
        requires shallow { new.depth ≤ 257 }
        requires small { new.size ≤ 2000000 }
        ensures outline { (q : Plain) → IsOutline new q → MatchOption (at steps.now tree.now) (result ≡ None) (λ _. IsSomeAnd result (λ o. IsOutline o (put steps.now tree.now q))) }
        ensures shallow { IfSome result (λ o. o.depth ≤ depth_of tree.now + 257) }
        ensures small { IfSome result (λ o. o.size ≤ size_of tree.now + 2000000) }
    {
        let Some((step, rest)) = steps.split_first() else {
            return Some(new);
        };
        let kid = tree.kid(*step)?;
        let below = Outline::of_put(kid, rest, new)?;
        Some(Outline::with_kid(tree, *step as usize - 1, kid, below))
    }

    /// The outline of a tree with another kid at `i`, counted from 0, which has this outline.
    fn with_kid(tree: &Tree, i: usize, kid: &Tree, new: Outline) -> Outline
        requires is_kid { slice_get (kids_of tree.now) i ≡ Some kid.now }
        requires shallow { new.depth ≤ depth_of kid.now + 257 }
        requires small { new.size ≤ size_of kid.now + 2000000 }
        ensures outline { (q : Plain) → IsOutline new q → IsOutline result (with_kid tree.now i q) }
        ensures shallow { result.depth ≤ depth_of tree.now + 257 }
        ensures small { result.size ≤ size_of tree.now + 2000000 }
    {
        let kind = tree.kind();
        Outline {
            kind,
            fits: fits_with(kind, i, new),
            is_open: opens(kind, is_last_open_with(tree.kid_slice(), i, new.is_open)),
            depth: deepest_with(tree.kid_slice(), i, new.depth) + 1,
            size: tree.size() - kid.size() + new.size,
        }
    }
}

/// Whether a node of this kind, which is well formed, stays so with a kid at `i`, counted from 0, that has this outline.
fn fits_with(kind: Kind, i: usize, new: Outline) -> bool
    ensures { result ≡ (new.fits && takes (class_from kind i) new.kind && not (breaks_else_rule_at kind i new.is_open)) }
{
    new.fits && takes(kind.class_from(i), new.kind) && !breaks_else_rule_at(kind, i, new.is_open)
}

/// Whether an `else` of a node of this kind would be that of its kid at `i`, counted from 0, if that ended so.
fn breaks_else_rule_at(kind: Kind, i: usize, is_open: bool) -> bool
    ensures { result ≡ breaks_else_rule_at kind i is_open }
{
    match kind {
        Kind::Ifelse => i == 1 && is_open,
        _ => false,
    }
}

/// Whether the last of these trees ends open, if the one at `i` ended so.
fn is_last_open_with(trees: &[Tree], i: usize, so: bool) -> bool
    requires { i < length trees.now }
    ensures { (q : Plain) → so ≡ is_open q → result ≡ last_open (forest_of (slice_set trees.now i q)) }
{
    if i + 1 == trees.len() {
        return so;
    }
    is_last_open(trees)
}

/// The levels of the deepest of these trees, if the one at `i` had so many.
pub fn deepest_with(trees: &[Tree], i: usize, depth: u32) -> u32
    ensures { result ≡ largest (slice_set (map depth_of trees.now) i depth) }
{
    let mut deepest = 0u32;
    for (j, tree) in trees.iter().enumerate() {
        deepest = deepest.max(if j == i { depth } else { tree.depth() });
    }
    deepest
}
