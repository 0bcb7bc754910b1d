//! The types of operators on operands whose types may be unknown.

ghost use Rattle.std.specs.Prelude.{Option, None, if◌then◌else◌};
ghost use Rattle.pc_types.specs.Shapes.{Typed, IntegerType, BooleanType};
ghost use Rattle.pc_types.specs.TypeClasses.{is_integer, is_boolean};
ghost use Rattle.pc_types.specs.Rows.{seen};
ghost use Rattle.pc_rules.specs.Operators as rule;
ghost use Rattle.pc_rules.specs.Denoters.{some_typed};
ghost use Rattle.pc_facts.specs.Shows.{ShowsType};

use pc_forms::{AddOperator, MulOperator, RelOperator};
use pc_judgements::{added, compared, multiplied};
use pc_types::{Operand, Types};

/// The type of a product, where both operands have types that agree with the operator.
pub fn product_type(
    types: &Types,
    operator: MulOperator,
    left: Option<Operand>,
    right: Option<Operand>,
) -> Option<Operand>
    ensures { (a b : Option Typed) → ShowsType (seen types.now) left a → ShowsType (seen types.now) right b → ShowsType (seen types.now) result (rule.binary (rule.multiplied operator) a b) }
{
    match (left, right) {
        (Some(one), Some(other)) => multiplied(types, operator, one, other),
        _ => None,
    }
}

/// The type of a sum, likewise.
pub fn sum_type(
    types: &Types,
    operator: AddOperator,
    left: Option<Operand>,
    right: Option<Operand>,
) -> Option<Operand>
    ensures { (a b : Option Typed) → ShowsType (seen types.now) left a → ShowsType (seen types.now) right b → ShowsType (seen types.now) result (rule.binary (rule.added operator) a b) }
{
    match (left, right) {
        (Some(one), Some(other)) => added(types, operator, one, other),
        _ => None,
    }
}

/// The type of a relation, likewise.
pub fn relation_type(
    types: &Types,
    operator: RelOperator,
    left: Option<Operand>,
    right: Option<Operand>,
) -> Option<Operand>
    ensures { (a b : Option Typed) → ShowsType (seen types.now) left a → ShowsType (seen types.now) right b → ShowsType (seen types.now) result (rule.binary (rule.compared operator) a b) }
{
    match (left, right) {
        (Some(one), Some(other)) => compared(types, operator, one, other),
        _ => None,
    }
}

/// The type of `not` on an operand, where that is Boolean.
pub fn negation_type(types: &Types, of: Option<Operand>) -> Option<Operand>
    ensures { (a : Option Typed) → ShowsType (seen types.now) of a → ShowsType (seen types.now) result (rule.unary is_boolean BooleanType a) }
{
    match of {
        Some(operand) => boolean_where(types, types.is_boolean(operand)),
        None => None,
    }
}

/// The type of a sign before an operand, where that is an integer.
pub fn signed_type(types: &Types, of: Option<Operand>) -> Option<Operand>
    ensures { (a : Option Typed) → ShowsType (seen types.now) of a → ShowsType (seen types.now) result (rule.unary is_integer IntegerType a) }
{
    match of {
        Some(operand) => integer_where(types, types.is_integer(operand)),
        None => None,
    }
}

/// Boolean where the condition holds.
fn boolean_where(types: &Types, is_so: bool) -> Option<Operand>
    ensures { ShowsType (seen types.now) result (if is_so then some_typed BooleanType else None) }
{
    if is_so { Some(types.boolean()) } else { None }
}

/// Integer where the condition holds.
fn integer_where(types: &Types, is_so: bool) -> Option<Operand>
    ensures { ShowsType (seen types.now) result (if is_so then some_typed IntegerType else None) }
{
    if is_so { Some(types.integer()) } else { None }
}
