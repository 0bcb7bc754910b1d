//! Leaves that share their nodes: a program has few names and many places for them.

ghost use Rattle.std.specs.Prelude.{◌≡◌, [], IfOk, IsTrue};
ghost use Rattle.pc_syntax.specs.Plain.{node, kids_of};
ghost use Rattle.pc_syntax.specs.WellFormed.{IsProper};

use pc_syntax::{Kind, Tree};
use std::alloc::{AllocError, Global};

const SLOTS: u32 = 4096;

/// Leaves that were made before, each in the slot of its word. What is kept changes no answer.
#[derive(Drop)]
pub struct Leaves {
    slots: Vec<Option<Tree>>,
}

impl Leaves {
    /// No leaves yet.
    pub(crate) fn new(alloc: Global) -> Result<Leaves, AllocError> {
        let mut slots = Vec::with_capacity(alloc, SLOTS as usize)?;
        for _slot in 0..SLOTS {
            slots.push(None)?;
        }
        Ok(Leaves { slots })
    }

    /// The leaf of this kind and word: one that was made before, where its slot still has it, and
    /// else a new one, which takes the slot.
    pub(crate) fn leaf(
        &mut self,
        alloc: Global,
        kind: Kind,
        word: &[u8],
    ) -> Result<Tree, AllocError>
        requires { IsProper (node kind word.now [] []) }
        ensures { IfOk result (λ tree. tree ≡ node kind word.now [] []) }
    {
        let slot = slot_of(word);
        if let Some(Some(tree)) = self.slots.get(slot) {
            if is_leaf(tree, kind, word) {
                return same(tree, kind, word);
            }
        }
        let tree = Tree::of_proper(alloc, kind, word, Vec::new(alloc))?;
        if slot < self.slots.len() {
            self.slots[slot] = Some(tree.copy()?);
        }
        Ok(tree)
    }
}

/// The tree again, which is this leaf.
fn same(tree: &Tree, kind: Kind, word: &[u8]) -> Result<Tree, AllocError>
    requires { tree.now ≡ node kind word.now [] [] }
    ensures { IfOk result (λ copy. copy ≡ node kind word.now [] []) }
{
    let copy = tree.copy()?;
    Ok(copy)
}

/// Whether the tree is the leaf of this kind and word.
fn is_leaf(tree: &Tree, kind: Kind, word: &[u8]) -> bool
    ensures { IsTrue result → tree.now ≡ node kind word.now [] [] }
{
    if !is_bare(tree) {
        return false;
    }
    if !is_same(tree.word(), word) {
        return false;
    }
    tree.kind().is(kind)
}

/// Whether the tree has neither notes nor kids.
fn is_bare(tree: &Tree) -> bool
    ensures notes { IsTrue result → tree.now.notes ≡ [] }
    ensures kids { IsTrue result → kids_of tree.now ≡ [] }
{
    if !tree.notes().is_empty() {
        return false;
    }
    tree.kid_slice().is_empty()
}

fn is_same(word: &[u8], other: &[u8]) -> bool
    ensures { IsTrue result → word.now ≡ other.now }
{
    word == other
}

/// The slot of a word.
fn slot_of(word: &[u8]) -> usize {
    let mut number = 0u32;
    for byte in word {
        number = number.wrapping_mul(31).wrapping_add(u32::from(*byte));
    }
    (number % SLOTS) as usize
}
