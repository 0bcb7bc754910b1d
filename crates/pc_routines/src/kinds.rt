//! The parts of a routine's heading.

ghost use Rattle.std.specs.Prelude.{◌≡◌};
ghost use Rattle.pc_syntax.specs.Words.{lowered};
ghost use Rattle.pc_scope.specs.Headings as headings;

use pc_syntax::{Kind, Tree};

/// Whether a node of this kind is a routine.
pub(crate) fn is_routine_kind(kind: Kind) -> bool
    ensures { result ≡ headings.is_routine_kind kind }
{
    matches!(kind, Kind::Procedure | Kind::Function | Kind::Funbody)
}

/// Whether a routine of this kind is a function.
pub(crate) fn is_function_kind(kind: Kind) -> bool
    ensures { result ≡ headings.is_function_kind kind }
{
    matches!(kind, Kind::Function | Kind::Funbody)
}

/// Whether the block of a routine is a forward.
pub(crate) fn ends_forward(routine: &Tree) -> bool
    ensures { result ≡ headings.ends_forward routine.now.kids }
{
    for kid in routine.kid_slice() {
        if matches!(kid.kind(), Kind::Forward) {
            return true;
        }
    }
    false
}

/// The name of a routine as it is spelled, and nothing where it is a hole.
pub(crate) fn spelled_name(routine: &Tree) -> &[u8]
    ensures { lowered result.now ≡ headings.first_name routine.now.kids }
{
    let Some(first) = routine.kid(1) else {
        return &[];
    };
    if first.kind().is_hole() {
        return &[];
    }
    first.word()
}
