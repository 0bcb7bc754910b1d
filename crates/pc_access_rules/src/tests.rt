//! Tests of types that may be unknown.

ghost use Rattle.std.specs.Prelude.{◌≡◌, if◌then◌else◌, None, option_map};
ghost use Rattle.pc_syntax.specs.Words.{lowered};
ghost use Rattle.pc_types.specs.Rows.{seen};
ghost use Rattle.pc_types.specs.Table.{shape_at};
ghost use Rattle.pc_access_rules.specs.Accessed as accessed;

use pc_types::{Operand, Types};

/// Whether a type is known and no array.
#[tactic(auto, using(crate::proofs::Shapes::shapes))]
pub(crate) fn is_no_array(types: &Types, of: Option<Operand>) -> bool
    ensures { result ≡ accessed.is_no_array (option_map (shape_at (seen types.now)) of) }
{
    match of {
        Some(array) => !types.is_array(array),
        None => false,
    }
}

/// Whether a type is known and no record.
#[tactic(auto, using(crate::proofs::Shapes::shapes))]
pub(crate) fn is_no_record(types: &Types, of: Option<Operand>) -> bool
    ensures { result ≡ accessed.is_no_record (option_map (shape_at (seen types.now)) of) }
{
    match of {
        Some(record) => !types.is_record(record),
        None => false,
    }
}

/// Whether a type is known and no pointer type of a denoter: that of `nil` is none.
#[tactic(auto, using(crate::proofs::Shapes::shapes))]
pub(crate) fn is_no_pointer(types: &Types, of: Option<Operand>) -> bool
    ensures { result ≡ accessed.is_no_pointer (option_map (shape_at (seen types.now)) of) }
{
    match of {
        Some(pointer) => types.pointed(pointer).is_none(),
        None => false,
    }
}

/// Whether a type is known and a packed array.
#[tactic(auto, using(crate::proofs::Shapes::shapes))]
pub(crate) fn is_packed_array(types: &Types, of: Option<Operand>) -> bool
    ensures { result ≡ accessed.is_packed_array (option_map (shape_at (seen types.now)) of) }
{
    match of {
        Some(array) => types.is_array(array) && types.is_packed(array),
        None => false,
    }
}

/// Whether a type is known, and a record that has no field with this name, in any case; none is missed in a hole's place. Work: the
/// number of fields.
#[tactic(auto, using(crate::proofs::Shapes::shapes))]
pub(crate) fn lacks_field(types: &Types, of: Option<Operand>, name: &[u8], hole: bool) -> bool
    ensures { result ≡ accessed.lacks_field (option_map (shape_at (seen types.now)) of) (lowered name.now) hole }
{
    match of {
        Some(record) => types.is_record(record) && !hole && types.field(record, name).is_none(),
        None => false,
    }
}

/// The type, where the condition holds.
pub(crate) fn where_true(is_so: bool, of: Option<Operand>) -> Option<Operand>
    ensures { result ≡ (if is_so then of else None) }
{
    if is_so { of } else { None }
}
