//! The numbers by which tables tell procedures from functions.

ghost use Rattle.std.specs.Prelude.{◌≡◌};
ghost use Rattle.pc_routines.specs.Heads as heads;

/// Functions have 1, procedures 0.
pub(crate) fn side(is_function: bool) -> u32
    ensures { result ≡ heads.side is_function }
{
    if is_function { 1 } else { 0 }
}
