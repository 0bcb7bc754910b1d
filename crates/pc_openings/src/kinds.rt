//! Kinds of nodes.

ghost use Rattle.std.specs.Prelude.{◌≡◌};
ghost use Rattle.pc_openings.specs.Declaring as declaring;

use pc_syntax::Kind;

/// Whether nodes that declare something in its block may stand below a node of this kind.
pub(crate) fn may_declare_below(kind: Kind) -> bool
    ensures { result ≡ declaring.may_declare_below kind }
{
    matches!(
        kind,
        Kind::Program
            | Kind::Block
            | Kind::Typedef
            | Kind::Vardef
            | Kind::Field
            | Kind::Valparam
            | Kind::Varparam
            | Kind::Enum
            | Kind::Array
            | Kind::Record
            | Kind::Setof
            | Kind::Packed
            | Kind::Params
            | Kind::Indexes
            | Kind::Consts
            | Kind::Types
            | Kind::Vars
            | Kind::Routines
            | Kind::Fields
    )
}
