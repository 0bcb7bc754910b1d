//! Tests of two truth values, and of types that may be unknown, each as one value.

ghost use Rattle.std.specs.Prelude.{◌≡◌, ◌||◌, ◌&&◌};
ghost use Rattle.std.specs.Option.{is_some, is_none};

use pc_types::Operand;

/// Whether one of two holds.
pub fn either(one: bool, other: bool) -> bool
    ensures { result ≡ (one || other) }
{
    one || other
}

/// Whether both hold.
pub fn both(one: bool, other: bool) -> bool
    ensures { result ≡ (one && other) }
{
    one && other
}

/// Whether a type is known.
pub fn is_known(of: Option<Operand>) -> bool
    ensures { result ≡ is_some of }
{
    of.is_some()
}

/// Whether a type is unknown.
pub fn is_unknown(of: Option<Operand>) -> bool
    ensures { result ≡ is_none of }
{
    of.is_none()
}
