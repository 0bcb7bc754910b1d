//! Trees, and what can be read off them.

ghost use Rattle.std.specs.Prelude.{◌≡◌, ◌≤◌, [], IfOk, length};
ghost use Rattle.std.specs.Option.{option_copied, option_map_or};
ghost use Rattle.pc_syntax.specs.Plain.{node, kids_of};
ghost use Rattle.pc_syntax.specs.WellFormed.{size_of, depth_of, holes_of, IsProper};
ghost use Rattle.pc_syntax.specs.Parts.{is_open, kid_at};

use crate::kind::Kind;
use crate::make::{Counts, counts_of, is_last_open, opens};
use crate::note::Note;
use crate::text::Text;
use std::alloc::{AllocError, Global};
use std::marker::Model;
use std::rc::Rc;

/// A tree of Pascal's syntax, whose parts may be shared with other trees. Every tree is well formed and within
/// the limits.
#[cycle(tree)]
#[derive(Drop)]
pub struct Tree {
    node: Rc<Node>,
}

#[cycle(tree)]
#[derive(Drop)]
struct Node {
    kids: Vec<Tree>,
    text: Option<Rc<Text>>,
    size: u64,
    holes: u64,
    depth: u32,
    kind: Kind,
    is_open: bool,
}

impl Model for Tree {
    ghost use Rattle.pc_syntax.specs.Plain.{Plain, plain_code};
    ghost use Rattle.pc_syntax.specs.WellFormed.{size_of};

    ghost Value = { Plain };

    ghost coded = { plain_code };

    ghost use Rattle.pc_syntax.specs.View.{plain_of, IsCounted};

    ghost view = { λ t. plain_of t.node.value };

    ghost invariant = { λ t. IsCounted t.node.value };

    ghost size = { size_of };

    ghost use Rattle.pc_syntax.specs.FallsLaws.{size_falls};

    ghost size_decreases = { λ a h. size_falls a };
}

impl Tree {
    #[tactic(auto, using(crate::specs::PartsLaws::opened))]
    pub fn kind(&self) -> Kind
        ensures value { result ≡ self.now.kind }
        ensures proper { IsProper self.now }
    {
        self.node.kind
    }

    /// Its word, empty where it has none.
    #[tactic(auto, using(crate::specs::PartsLaws::opened))]
    pub fn word(&self) -> &[u8]
        ensures { result.now ≡ self.now.word }
    {
        match &self.node.text {
            Some(text) => text.word.bytes(),
            None => &[],
        }
    }

    /// The comments that stand before it, in order.
    #[tactic(auto, using(crate::specs::PartsLaws::opened))]
    pub fn notes(&self) -> &[Note]
        ensures { result.now ≡ self.now.notes }
    {
        match &self.node.text {
            Some(text) => &text.notes,
            None => &[],
        }
    }

    /// Its kids, in order.
    #[tactic(auto, using(crate::specs::PartsLaws::opened))]
    pub fn kid_slice(&self) -> &[Tree]
        ensures value { result.now ≡ kids_of self.now }
        ensures proper { IsProper self.now }
    {
        &self.node.kids
    }

    /// How many kids it has.
    pub fn kids(&self) -> u32
        ensures { result ≡ length (kids_of self.now) }
    {
        self.kid_slice().len() as u32
    }

    /// The kid with a number, from 1.
    pub fn kid(&self, number: u32) -> Option<&Tree>
        ensures value { option_copied result ≡ kid_at self.now number }
        ensures proper { IsProper self.now }
    {
        let kids = self.kid_slice();
        let i = number.checked_sub(1)?;
        kids.get(i as usize)
    }

    /// How many nodes it has.
    pub fn size(&self) -> u64
        ensures value { result ≡ size_of self.now }
        ensures proper { IsProper self.now }
    {
        self.node.size
    }

    /// How many nodes the longest way down has; 1 for a tree of one node.
    pub fn depth(&self) -> u32
        ensures value { result ≡ depth_of self.now }
        ensures proper { IsProper self.now }
    {
        self.node.depth
    }

    /// How many holes it has.
    pub fn holes(&self) -> u64
        ensures value { result ≡ holes_of self.now }
        ensures fewer { holes_of self.now ≤ size_of self.now }
        ensures proper { IsProper self.now }
    {
        self.node.holes
    }

    /// Whether it ends open: an `else` after it would be its own.
    pub fn is_open(&self) -> bool
        ensures { result ≡ is_open self.now }
    {
        self.node.is_open
    }

    /// The same tree again, which shares all its nodes.
    pub fn copy(&self) -> Result<Tree, AllocError>
        ensures { IfOk result (λ tree. tree ≡ self.now) }
    {
        Ok(Tree {
            node: self.node.clone()?,
        })
    }

    /// Its word and notes, shared.
    #[tactic(auto, using(crate::specs::PartsLaws::opened))]
    pub(crate) fn text(&self) -> Result<Option<Rc<Text>>, AllocError>
        ensures word { IfOk result (λ text. option_map_or (λ t. t.value.word) text [] ≡ self.now.word) }
        ensures notes { IfOk result (λ text. option_map_or (λ t. t.value.notes.items) text [] ≡ self.now.notes) }
    {
        match &self.node.text {
            Some(text) => Ok(Some(text.clone()?)),
            None => Ok(None),
        }
    }

    /// A node that is known to be well formed and within the limits.
    pub(crate) fn of_text(
        alloc: Global,
        kind: Kind,
        text: Option<Rc<Text>>,
        kids: Vec<Tree>,
    ) -> Result<Tree, AllocError>
        requires { IsProper (node kind (option_map_or (λ t. t.value.word) text []) (option_map_or (λ t. t.value.notes.items) text []) kids.items) }
        ensures { IfOk result (λ tree. tree ≡ node kind (option_map_or (λ t. t.value.word) text []) (option_map_or (λ t. t.value.notes.items) text []) kids.items) }
    {
        let Counts { size, depth, holes } = counts_of(kind, &kids);
        let is_open = opens(kind, is_last_open(&kids));
        let node = Node {
            kids,
            text,
            size,
            holes,
            depth,
            kind,
            is_open,
        };
        Ok(Tree {
            node: Rc::new(alloc, node)?,
        })
    }
}
