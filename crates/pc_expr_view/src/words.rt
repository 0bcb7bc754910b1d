//! The word that is shown of an expression, and which are `nil`.

ghost use Rattle.std.specs.Prelude.{◌≡◌};
ghost use Rattle.pc_syntax.specs.Plain.{forest_of};
ghost use Rattle.pc_decl.specs.ExprText.{first_as_written, behind_first, word_shown, is_nil};
ghost use Rattle.pc_expr_view.specs.ToldText.{as_written};

use pc_syntax::{Kind, Tree};

/// The word that is shown of a node: the name of a variable or a function, the field that is selected, and else the node's own.
#[tactic(auto, using(crate::proofs::Kids::read))]
pub(crate) fn word_shown(node: &Tree) -> &[u8]
    ensures { result.now ≡ word_shown node.now.kind node.now.word node.now.kids }
{
    match node.kind() {
        Kind::Ref | Kind::Call => first_as_written(node.kid_slice()),
        Kind::Select => second_as_written(node.kid_slice()),
        _ => node.word(),
    }
}

/// The first of these nodes as it is written; a hole as it prints.
fn first_as_written(nodes: &[Tree]) -> &[u8]
    ensures { result.now ≡ first_as_written (forest_of nodes.now) }
{
    match nodes {
        [first, ..] => as_written(first),
        [] => b"",
    }
}

/// The second of these nodes as it is written.
fn second_as_written(nodes: &[Tree]) -> &[u8]
    ensures { result.now ≡ first_as_written (behind_first (forest_of nodes.now)) }
{
    match nodes {
        [_, rest @ ..] => first_as_written(rest),
        [] => b"",
    }
}

/// A name as it is written; a hole as it prints.
fn as_written(name: &Tree) -> &[u8]
    ensures { result.now ≡ as_written name.now }
{
    if name.kind().is_hole() {
        name.kind().name()
    } else {
        name.word()
    }
}

/// Whether a node is `nil`, in parentheses too.
#[tactic(auto, using(crate::proofs::Kids::read))]
pub(crate) fn is_nil(node: &Tree) -> bool
    ensures { result ≡ is_nil node.now.kind node.now.kids }
{
    match node.kind() {
        Kind::Nil => true,
        Kind::Parens => match node.kid_slice() {
            [first, ..] => is_nil(first),
            [] => false,
        },
        _ => false,
    }
}
