//! The spans of the nodes of a tree, in preorder, as they are noted while it is printed.

ghost use Rattle.std.specs.Prelude.{◌≡◌, ◌<◌, ◌++◌, ◌∷◌, [], None, IfOk, IsTrue, length, set};
ghost use Rattle.pc_pretty.specs.Joined.{through};

use pc_lex::Span;
use std::alloc::AllocError;

/// Keeps a place for the span of the next node, if spans are asked for, and says which.
pub fn keep_place(asked: bool, spans: &mut Vec<Option<Span>>) -> Result<usize, AllocError>
    ensures place { IfOk result (λ place. place ≡ length spans.old.items) }
    ensures kept { IfOk result (λ _. IsTrue asked → spans.new.items ≡ spans.old.items ++ None ∷ []) }
{
    let place = spans.len();
    if asked {
        spans.push(None)?;
    }
    Ok(place)
}

/// Puts a node's span into its place, if spans are asked for.
pub fn put_span(asked: bool, spans: &mut Vec<Option<Span>>, place: usize, span: Option<Span>)
    requires { IsTrue asked → place < length spans.old.items }
    ensures { IsTrue asked → spans.new.items ≡ set spans.old.items place span }
{
    if asked {
        spans[place] = span;
    }
}

/// From one span to the end of another, where each may be missing.
pub fn through(span: Option<Span>, next: Option<Span>) -> Option<Span>
    ensures { result ≡ through span next }
{
    match (span, next) {
        (Some(span), Some(next)) => Some(Span {
            from: span.from,
            to: next.to,
        }),
        (Some(span), None) => Some(span),
        (None, next) => next,
    }
}
