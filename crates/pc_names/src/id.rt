//! Numbers of names, of blocks and of declarations.

ghost use Rattle.std.specs.Prelude.{◌≡◌, IfOk};

use std::alloc::AllocError;

/// The number of a name, from 0, in the order in which names were first met.
#[derive(Clone, Copy, PartialEq, Eq, Debug)]
pub struct NameId(pub u32);

/// The number of a block, from 0, in the order in which blocks were begun.
#[derive(Clone, Copy, PartialEq, Eq, Debug)]
pub struct BlockId(pub u32);

/// The number of a declaration in a table that the caller keeps.
#[derive(Clone, Copy, PartialEq, Eq, Debug)]
pub struct DeclarationId(pub u32);

/// The number as one of 32 bits, or no memory where there is none.
pub(crate) fn u32_of(number: usize) -> Result<u32, AllocError>
    ensures { IfOk result (λ n. n ≡ number) }
{
    u32::try_from(number).map_err(|_| AllocError)
}
