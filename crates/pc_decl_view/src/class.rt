//! The word for the class of a name.

ghost use Rattle.std.specs.Prelude.{◌≡◌};
ghost use Rattle.pc_decl.specs.DeclsText.{class_text};

use pc_syntax::Kind;

/// The word for the class of a name that a node of this kind declares; none where such a node declares no name of a routine.
pub(crate) fn class_word(kind: Kind) -> &'static [u8]
    ensures { result.now ≡ class_text kind }
{
    match kind {
        Kind::Constdef => b"const",
        Kind::Typedef => b"type",
        Kind::Vardef => b"var",
        Kind::Valparam => b"value",
        Kind::Varparam => b"ref",
        Kind::Enum => b"element",
        Kind::Procedure => b"procedure",
        Kind::Function => b"function",
        Kind::Funbody => b"function",
        _ => b"",
    }
}
