//! Types that are out of place: where an ordinal type is wanted, as the result of a function, as the base of a set, as a bound.

ghost use Rattle.std.specs.Prelude.{◌≡◌, option_map};
ghost use Rattle.pc_types.specs.Rows.{seen};
ghost use Rattle.pc_types.specs.Table.{shape_at};
ghost use Rattle.pc_judgements.specs.Judged as judged;

use pc_types::{Operand, Types};

/// Whether the type is known and not ordinal.
pub fn is_no_ordinal(types: &Types, operand: Option<Operand>) -> bool
    ensures { result ≡ judged.is_no_ordinal (option_map (shape_at (seen types.now)) operand) }
{
    match operand {
        Some(known) => !types.is_ordinal(known),
        None => false,
    }
}

/// Whether the type is known and no result type of a function: neither ordinal nor a pointer type.
pub fn is_not_simple(types: &Types, operand: Option<Operand>) -> bool
    ensures { result ≡ judged.is_not_simple (option_map (shape_at (seen types.now)) operand) }
{
    match operand {
        Some(known) => !(types.is_ordinal(known) || types.is_pointer(known)),
        None => false,
    }
}

/// Whether the control variable of a for statement has a type that is known and not compatible with that of a bound.
pub fn is_incompatible(types: &Types, control: Option<Operand>, bound: Operand) -> bool
    ensures { result ≡ judged.is_incompatible (option_map (shape_at (seen types.now)) control) (shape_at (seen types.now) bound) }
{
    match control {
        Some(known) => !types.compatible(known, bound),
        None => false,
    }
}

/// Whether the type is ordinal, and has a value below 0 or above 255, so that it is no base of a set.
pub fn is_base_too_large(types: &Types, operand: Operand) -> bool
    ensures { result ≡ judged.is_base_too_large (shape_at (seen types.now) operand) }
{
    types.is_ordinal(operand) && (types.low(operand) < 0 || types.high(operand) > 255)
}
