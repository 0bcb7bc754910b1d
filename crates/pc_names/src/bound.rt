//! What a name means from a block outwards.

use crate::id::DeclarationId;
use crate::name_class::NameClass;

/// What the innermost block that has a name says of it: its declaration, which is complete; or that the block declares it only
/// later, and as what; or that no block has the name.
#[derive(Clone, Copy, PartialEq, Eq, Debug)]
pub enum Bound {
    Here(DeclarationId),
    Later(NameClass),
    Unbound,
}
