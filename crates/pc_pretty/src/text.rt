//! The printed text of a tree, and where its nodes stand in it.

ghost use Rattle.std.specs.Prelude.{◌≡◌, ◌≤◌, ◌<◌, ◌↔◌, ℕ, List, IfOk, IfSome, IsSome, IsSomeAnd, IsTrue, length};
ghost use Rattle.pc_pretty.specs.Printed.{printed};
ghost use Rattle.pc_pretty.specs.Ranges.{range_span};
ghost use Rattle.pc_pretty.specs.Spans.{span_at};
ghost use Rattle.pc_pretty.specs.Innermost.{Holds, HoldsAt};
ghost use Rattle.pc_pretty.specs.Preorder.{nodes_before};
ghost use Rattle.pc_syntax.specs.Places.{at};
ghost use Rattle.pc_syntax.specs.WellFormed.{size_of};

use crate::places::nodes_before;
use crate::printing::print_whole;
use crate::range::{Range, span_of};
use pc_lex::Span;
use pc_syntax::{Path, Tree};
use std::alloc::{AllocError, Global};
use std::marker::Model;

/// The text of a tree, with the places of its nodes. A contract sees it as the tree that it is the text of.
#[derive(Drop)]
pub struct Text {
    bytes: Vec<u8>,
    spans: Vec<Option<Span>>,
    tree: Tree,
}

impl Model for Text {
    ghost use Rattle.pc_syntax.specs.Plain.{Plain, plain_code};

    ghost Value = { Plain };

    ghost coded = { plain_code };

    ghost view = { λ t. t.tree };

    ghost use Rattle.pc_pretty.specs.Kept.{IsText};

    ghost invariant = { λ t. IsText t.bytes.items t.spans.items t.tree };
}

/// The text of a tree. Fails for want of memory only.
pub fn pretty(alloc: Global, tree: &Tree) -> Result<Text, AllocError>
    ensures { IfOk result (λ text. text ≡ tree.now) }
{
    let mut spans = Vec::with_capacity(alloc, tree.size() as usize)?;
    let bytes = print_whole(alloc, tree, true, &mut spans)?;
    let tree = tree.copy()?;
    Ok(Text { bytes, spans, tree })
}

impl Text {
    /// The bytes. Every line ends with a line feed.
    pub fn bytes(&self) -> &[u8]
        ensures { result.now ≡ printed self.now }
    {
        self.bytes.as_slice()
    }

    /// The span of the node at a path: from its first symbol to the end of its last one, in bytes from 0. Its own
    /// comments stand outside of it. None where there is no such node or it has no symbols.
    pub fn span(&self, path: &Path) -> Option<Span>
        ensures { result ≡ span_at path.now self.now }
    {
        let place = nodes_before(&self.tree, path)?;
        self.spans[place]
    }

    /// The span of a range. None where an end isn't in the text or precedes the start.
    pub fn range(&self, range: &Range) -> Option<Span>
        ensures value { result ≡ range_span (printed self.now) range.now }
        ensures within { IfSome result (λ span. (span.from ≤ span.to) × (span.to ≤ length (printed self.now))) }
    {
        span_of(&self.bytes, range)
    }

    /// The tree that it is the text of.
    pub(crate) fn tree(&self) -> &Tree
        ensures value { result.now ≡ self.now }
    {
        &self.tree
    }

    /// Whether the span of the node at a place in preorder holds another span.
    pub(crate) fn holds(&self, place: usize, span: Span) -> bool
        requires { place < size_of self.now }
        ensures { (path : List ℕ) → IsSome (at path self.now) → place ≡ nodes_before path self.now → (IsTrue result ↔ HoldsAt self.now span path) }
    {
        let _ = self.tree.size();
        holds(self.spans[place], span)
    }
}

/// Whether the first span, if there is one, holds the second one.
fn holds(outer: Option<Span>, inner: Span) -> bool
    ensures { IsTrue result ↔ IsSomeAnd outer (λ span. Holds span inner) }
{
    match outer {
        Some(span) => span.from <= inner.from && inner.to <= span.to,
        None => false,
    }
}
