//! Headings of routines, and the blocks behind them.

ghost use Rattle.std.specs.Prelude.{◌≡◌, ◌+◌, ◌<◌, ◌^◌, ◌≤◌, [], length, IfSome, IsNone};
ghost use Rattle.pc_syntax.specs.Plain.{Nil, forest_of};
ghost use Rattle.pc_syntax.specs.Words.{lowered};
ghost use Rattle.pc_syntax.specs.WellFormed.{size_in, size_of};
ghost use Rattle.pc_scope.specs.Blocks.{block_kids, kid_count, routines_among};
ghost use Rattle.pc_scope.specs.Entries.{is_parameters};
ghost use Rattle.pc_scope.specs.Headings as headings;

use pc_syntax::{Kind, Tree};

/// Whether a routine of this kind is a function.
pub fn is_function_kind(kind: Kind) -> bool
    ensures { result ≡ headings.is_function_kind kind }
{
    matches!(kind, Kind::Function | Kind::Funbody)
}

/// The name of a routine as it is spelled, and nothing where it is a hole.
pub fn spelled_name(routine: &Tree) -> &[u8]
    ensures { lowered result.now ≡ headings.first_name routine.now.kids }
{
    let Some(first) = routine.kid(1) else {
        return &[];
    };
    if first.kind().is_hole() {
        return &[];
    }
    first.word()
}

/// Whether a routine's block is a forward.
pub fn ends_forward(routine: &Tree) -> bool
    ensures { result ≡ headings.ends_forward routine.now.kids }
{
    for kid in routine.kid_slice() {
        if matches!(kid.kind(), Kind::Forward) {
            return true;
        }
    }
    false
}

/// The block of a routine or program, if it has one.
pub fn block_of(tree: &Tree) -> Option<&Tree>
    ensures some { IfSome result (λ b. b.now.kids ≡ block_kids tree.now.kids) }
    ensures smaller { IfSome result (λ b. size_of b.now + 1 ≤ size_of tree.now) }
    ensures none { IsNone result → block_kids tree.now.kids ≡ Nil }
{
    for kid in tree.kid_slice() {
        if matches!(kid.kind(), Kind::Block) {
            return Some(kid);
        }
    }
    None
}

/// The routines in a block.
pub fn routines_in(block: &Tree) -> &[Tree]
    ensures value { forest_of result.now ≡ routines_among block.now.kids }
    ensures smaller { size_in (forest_of result.now) + 1 ≤ size_of block.now }
    ensures few { length result.now < 2 ^ 32 }
{
    match block.kid(4) {
        Some(routines) => routines.kid_slice(),
        None => &[],
    }
}

/// The routines in the block of a routine or program.
pub fn routines_of(tree: &Tree) -> &[Tree]
    ensures value { forest_of result.now ≡ routines_among (block_kids tree.now.kids) }
    ensures smaller { size_in (forest_of result.now) + 1 ≤ size_of tree.now }
    ensures few { length result.now < 2 ^ 32 }
{
    match block_of(tree) {
        Some(block) => routines_in(block),
        None => &[],
    }
}

/// Whether a node of this kind is a list of parameters.
pub fn is_parameters(kind: Kind) -> bool
    ensures { result ≡ is_parameters kind }
{
    matches!(kind, Kind::Params)
}
