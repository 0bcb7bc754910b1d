//! The deepest node whose span holds another span.

ghost use Rattle.std.specs.Prelude.{◌≡◌, Some, IfOk};
ghost use Rattle.pc_syntax.specs.Places.{at};
ghost use Rattle.pc_pretty.specs.Preorder.{nodes_before};
ghost use Rattle.pc_pretty.specs.Innermost.{HoldsAt, FindsInnermost, IsInnermostOf, IsBelow, longer};

use crate::text::Text;
use pc_lex::Span;
use pc_syntax::{Path, Tree};
use std::alloc::{AllocError, Global};

impl Text {
    /// The path of the deepest node whose span holds the given one, of the first in the text where several are equally
    /// deep. None where there is no such node.
    pub fn innermost(&self, alloc: Global, span: Span) -> Result<Option<Path>, AllocError>
        ensures { IfOk result (FindsInnermost self.now span) }
    {
        let _ = self.tree().size();
        if !self.holds(0, span) {
            return Ok(None);
        }
        let found = deepest(alloc, self, self.tree(), 0, Path::root(alloc), span)?;
        Ok(Some(found))
    }
}

/// The path of the deepest node that holds the span, at or below the one with this path, which holds it too and stands
/// at this place in preorder.
fn deepest(
    alloc: Global,
    text: &Text,
    node: &Tree,
    place: usize,
    path: Path,
    span: Span,
) -> Result<Path, AllocError>
    requires node { at path text.now ≡ Some node.now }
    requires place { place ≡ nodes_before path text.now }
    requires holds { HoldsAt text.now span path }
    ensures { IfOk result (IsInnermostOf text.now span (IsBelow path)) }
{
    let _ = text.tree().size();
    let mut best: Option<Path> = None;
    let mut at = place + 1;
    for (i, kid) in node.kid_slice().iter().enumerate() {
        if text.holds(at, span) {
            let below = path.child(alloc, i as u32 + 1)?;
            let found = deepest(alloc, text, kid, at, below, span)?;
            best = Some(longer(best, found));
        }
        at += kid.size() as usize;
    }
    match best {
        Some(found) => Ok(found),
        None => Ok(path),
    }
}

/// The longer one of two paths, the first where they are equally long.
fn longer(best: Option<Path>, path: Path) -> Path
    ensures { result ≡ longer best path }
{
    match best {
        Some(best) => {
            if best.steps().len() < path.steps().len() {
                path
            } else {
                best
            }
        }
        None => path,
    }
}
