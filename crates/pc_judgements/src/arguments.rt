//! Assignments and arguments (ISO 7185, 6.6.3, 6.8.2.2).

ghost use Rattle.std.specs.Prelude.{◌≡◌, option_map};
ghost use Rattle.pc_types.specs.Rows.{seen};
ghost use Rattle.pc_types.specs.Table.{shape_at};
ghost use Rattle.pc_judgements.specs.Judged as judged;

use pc_types::{Operand, Types};

/// Whether both types are known, and a value of the second may not be assigned to a variable of the first, or be the argument of a
/// value parameter of that type.
pub fn is_unassignable(types: &Types, to: Option<Operand>, from: Option<Operand>) -> bool
    ensures { result ≡ judged.is_unassignable (option_map (shape_at (seen types.now)) to) (option_map (shape_at (seen types.now)) from) }
{
    match (to, from) {
        (Some(variable), Some(value)) => !types.assignable(variable, value),
        _ => false,
    }
}

/// Whether both types are known, and a variable of the second may not be the argument of a variable parameter of the first.
pub fn differs(types: &Types, formal: Option<Operand>, actual: Option<Operand>) -> bool
    ensures { result ≡ judged.differs (option_map (shape_at (seen types.now)) formal) (option_map (shape_at (seen types.now)) actual) }
{
    match (formal, actual) {
        (Some(parameter), Some(variable)) => !types.same(parameter, variable),
        _ => false,
    }
}
