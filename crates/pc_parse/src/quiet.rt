//! Parts of a tree that bear no notes: expressions, constants, names, and lists of them.

ghost use Rattle.std.specs.Prelude.{◌≡◌, ◌+◌, ◌^◌, ◌<◌, ◌≤◌, true};
ghost use Rattle.pc_parse.specs.Placing.{breadth};
ghost use Rattle.pc_parse.specs.Quiet as quiet;

use pc_syntax::{Kind, Sort, Tree};

/// Whether no node of this kind bears notes, nor any node below it.
pub fn is_quiet(kind: Kind) -> bool
    ensures { result ≡ quiet.quiet kind }
{
    match kind {
        Kind::Cnumber
        | Kind::Cstring
        | Kind::Cname
        | Kind::Csign
        | Kind::Ref
        | Kind::Index
        | Kind::Select
        | Kind::Deref
        | Kind::Number
        | Kind::Text
        | Kind::Nil
        | Kind::Call
        | Kind::Parens
        | Kind::Not
        | Kind::Setcon
        | Kind::Mul
        | Kind::Add
        | Kind::Sign
        | Kind::Rel
        | Kind::Width
        | Kind::Span
        | Kind::Name
        | Kind::Args
        | Kind::Names
        | Kind::Labels
        | Kind::Exprs
        | Kind::Members => true,
        Kind::Hole(sort) => matches!(sort, Sort::Constant | Sort::Expression | Sort::Name),
        _ => false,
    }
}

/// The place behind the symbols of a quiet tree that begin at a place, in symbols from 0.
pub fn behind(tree: &Tree, start: usize) -> usize
    requires quiet { quiet.quiet tree.now.kind ≡ true }
    requires within { start + breadth tree.now < 2 ^ 64 }
    ensures { result ≡ start + breadth tree.now }
{
    let kids = tree.kid_slice();
    let mut at = start + own_symbols(tree.kind(), kids.len());
    for kid in kids {
        at = behind(kid, at);
    }
    at
}

/// How many symbols a quiet node with so many kids has beside those of its kids.
fn own_symbols(kind: Kind, kids: usize) -> usize
    requires { kids + 1 < 2 ^ 64 }
    ensures { result ≡ quiet.own_symbols kind kids }
{
    match kind {
        Kind::Cname | Kind::Ref => 0,
        Kind::Index | Kind::Call | Kind::Parens | Kind::Setcon => 2,
        Kind::Names | Kind::Labels | Kind::Exprs | Kind::Members => kids.saturating_sub(1),
        Kind::Args => { if kids == 0 { 0 } else { kids + 1 } }
        _ => 1,
    }
}
