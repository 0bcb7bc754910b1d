//! Comments: from `{` or `(*` to the first `}` or `*)` after it (ISO 7185, 6.1.8).

ghost use Rattle.std.specs.Prelude.{◌≡◌, ◌+◌, ◌<◌, ◌≤◌, drop, length, IsNone, IfSome};
ghost use Rattle.pc_lex.specs.Comments.{comment_after};
ghost use Rattle.pc_lex.specs.Comments as comments;

use crate::byte::stands_at;
use crate::error::LexError;
use crate::front::Front;

/// Whether the second opening mark, `(*`, stands at the beginning of the text.
pub fn opens_by_star(text: &[u8]) -> bool
    ensures { result ≡ comments.opens_by_star text.now }
{
    stands_at(text, 0, b'(') && stands_at(text, 1, b'*')
}

/// The comment at the beginning of the text, whose opening mark has `opening` bytes, 1 or 2.
/// Comments do not nest, and `{ a *)` and `(* a }` are comments too.
#[tactic(auto, using(crate::proofs::Scanning::comment_open))]
pub fn read_comment(text: &[u8], opening: usize) -> Front
    requires { opening ≤ length text.now }
    ensures { result ≡ comment_after opening (drop opening text.now) }
{
    for at in opening..text.len() {
        if let Some(comment) = closed_at(text, at) {
            return comment;
        }
    }
    Front::Fault(LexError::OpenComment(1))
}

/// The comment, where a closing mark stands at `at`.
#[tactic(auto, using(crate::proofs::Scanning::comment_brace, crate::proofs::Scanning::comment_star, crate::proofs::Scanning::comment_other, crate::proofs::Scanning::comment_lone))]
fn closed_at(text: &[u8], at: usize) -> Option<Front>
    requires { at < length text.now }
    ensures some { IfSome result (λ comment. comment_after at (drop at text.now) ≡ comment) }
    ensures none { IsNone result → comment_after at (drop at text.now) ≡ comment_after (at + 1) (drop (at + 1) text.now) }
{
    let b = text[at];
    if b == b'}' {
        Some(Front::Comment(at + 1))
    } else if b != b'*' {
        None
    } else if stands_at(text, at + 1, b')') {
        Some(Front::Comment(at + 2))
    } else {
        None
    }
}
