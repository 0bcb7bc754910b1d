//! The types of operators with two operands (ISO 7185, 6.7.2).

ghost use Rattle.std.specs.Prelude.{◌≡◌, ◌||◌, IfSome, option_map};
ghost use Rattle.pc_types.specs.TypeClasses.{base_of, is_set, is_pointer};
ghost use Rattle.pc_types.specs.Rows.{seen};
ghost use Rattle.pc_types.specs.Table.{shape_at, IsThere};
ghost use Rattle.pc_rules.specs.Operators as rule;
ghost use Rattle.pc_forms.specs.declared.operator.RelOperator.TheVariants as rel;
ghost use Rattle.pc_judgements.specs.Judged.{keeps_left};

use pc_forms::{AddOperator, MulOperator, RelOperator};
use pc_types::{Operand, Types};

/// The type of a product, where its operands have types that agree with the operator: `*` is for integers and for sets of
/// compatible types, `div` and `mod` are for integers, `and` is for Boolean.
pub fn multiplied(
    types: &Types,
    operator: MulOperator,
    left: Operand,
    right: Operand,
) -> Option<Operand>
    ensures shape { option_map (shape_at (seen types.now)) result ≡ rule.multiplied operator (shape_at (seen types.now) left) (shape_at (seen types.now) right) }
    ensures there { IsThere (seen types.now) left → IsThere (seen types.now) right → IfSome result (IsThere (seen types.now)) }
{
    match operator {
        MulOperator::Times => number_or_set(types, left, right),
        MulOperator::Div => integer_result(types, left, right),
        MulOperator::Mod => integer_result(types, left, right),
        MulOperator::And => boolean_result(types, left, right),
    }
}

/// The type of a sum: `+` and `-` are for integers and for sets of compatible types, `or` is for Boolean.
pub fn added(types: &Types, operator: AddOperator, left: Operand, right: Operand) -> Option<Operand>
    ensures shape { option_map (shape_at (seen types.now)) result ≡ rule.added operator (shape_at (seen types.now) left) (shape_at (seen types.now) right) }
    ensures there { IsThere (seen types.now) left → IsThere (seen types.now) right → IfSome result (IsThere (seen types.now)) }
{
    match operator {
        AddOperator::Plus => number_or_set(types, left, right),
        AddOperator::Minus => number_or_set(types, left, right),
        AddOperator::Or => boolean_result(types, left, right),
    }
}

/// The type of a relation, where it is defined on its operands: Boolean.
pub fn compared(
    types: &Types,
    operator: RelOperator,
    left: Operand,
    right: Operand,
) -> Option<Operand>
    ensures shape { option_map (shape_at (seen types.now)) result ≡ rule.compared operator (shape_at (seen types.now) left) (shape_at (seen types.now) right) }
    ensures there { IfSome result (IsThere (seen types.now)) }
{
    if is_related(types, operator, left, right) {
        Some(types.boolean())
    } else {
        None
    }
}

/// Whether a relation is defined on two operands: `in` on an ordinal and a set of a compatible base; the others on compatible types,
/// `<` and `>` on simple types and strings, `<=` and `>=` on sets too, `=` and `<>` on sets and pointers too.
pub fn is_related(types: &Types, operator: RelOperator, left: Operand, right: Operand) -> bool
    ensures { result ≡ rule.is_related operator (shape_at (seen types.now) left) (shape_at (seen types.now) right) }
{
    match operator {
        RelOperator::In => is_member(types, left, right),
        RelOperator::Less => types.compatible(left, right) && is_ordered(types, left),
        RelOperator::Greater => types.compatible(left, right) && is_ordered(types, left),
        RelOperator::AtMost => types.compatible(left, right) && is_included(types, left),
        RelOperator::AtLeast => types.compatible(left, right) && is_included(types, left),
        RelOperator::Equal => types.compatible(left, right) && is_equated(types, left),
        RelOperator::Unequal => types.compatible(left, right) && is_equated(types, left),
    }
}

/// Whether `in` is defined on an ordinal and a set.
fn is_member(types: &Types, left: Operand, right: Operand) -> bool
    ensures { result ≡ rule.is_related rel.In (shape_at (seen types.now) left) (shape_at (seen types.now) right) }
{
    types.is_ordinal(left) && types.is_set(right) && is_in_base(types, left, right)
}

/// Whether a type is compatible with the base of a set; the set without members has none.
fn is_in_base(types: &Types, operand: Operand, set: Operand) -> bool
    ensures { result ≡ rule.is_in_base (shape_at (seen types.now) operand) (base_of (shape_at (seen types.now) set)) }
{
    match types.base(set) {
        Some(base) => types.compatible_ordinals(operand, Operand::Id(base)),
        None => true,
    }
}

/// Whether `<` and `>` are for a type: simple types and strings.
fn is_ordered(types: &Types, operand: Operand) -> bool
    ensures { result ≡ rule.is_ordered (shape_at (seen types.now) operand) }
{
    types.is_ordinal(operand) || types.is_string(operand)
}

/// Whether `<=` and `>=` are for a type: for sets too.
fn is_included(types: &Types, operand: Operand) -> bool
    ensures { result ≡ (rule.is_ordered (shape_at (seen types.now) operand) || is_set (shape_at (seen types.now) operand)) }
{
    is_ordered(types, operand) || types.is_set(operand)
}

/// Whether `=` and `<>` are for a type: for sets and pointers too.
fn is_equated(types: &Types, operand: Operand) -> bool
    ensures { result ≡ (rule.is_ordered (shape_at (seen types.now) operand) || is_set (shape_at (seen types.now) operand) || is_pointer (shape_at (seen types.now) operand)) }
{
    is_ordered(types, operand) || types.is_set(operand) || types.is_pointer(operand)
}

/// The type of `div` and `mod`.
fn integer_result(types: &Types, left: Operand, right: Operand) -> Option<Operand>
    ensures shape { option_map (shape_at (seen types.now)) result ≡ rule.integer_result (shape_at (seen types.now) left) (shape_at (seen types.now) right) }
    ensures there { IfSome result (IsThere (seen types.now)) }
{
    if types.is_integer(left) && types.is_integer(right) {
        Some(types.integer())
    } else {
        None
    }
}

/// The type of `and` and `or`.
fn boolean_result(types: &Types, left: Operand, right: Operand) -> Option<Operand>
    ensures shape { option_map (shape_at (seen types.now)) result ≡ rule.boolean_result (shape_at (seen types.now) left) (shape_at (seen types.now) right) }
    ensures there { IfSome result (IsThere (seen types.now)) }
{
    if types.is_boolean(left) && types.is_boolean(right) {
        Some(types.boolean())
    } else {
        None
    }
}

/// The type of `+`, `-` and `*`.
fn number_or_set(types: &Types, left: Operand, right: Operand) -> Option<Operand>
    ensures shape { option_map (shape_at (seen types.now)) result ≡ rule.number_or_set_result (shape_at (seen types.now) left) (shape_at (seen types.now) right) }
    ensures there { IsThere (seen types.now) left → IsThere (seen types.now) right → IfSome result (IsThere (seen types.now)) }
{
    if types.is_integer(left) && types.is_integer(right) {
        return Some(types.integer());
    }
    if types.is_set(left) && types.is_set(right) && types.compatible(left, right) {
        Some(set_result(types, left, right))
    } else {
        None
    }
}

/// The type of a union, a difference or an intersection: a declared set type comes before a constructor's, then the left one.
#[tactic(auto, using(crate::proofs::SetsLaws::sets))]
fn set_result(types: &Types, left: Operand, right: Operand) -> Operand
    ensures shape { shape_at (seen types.now) result ≡ rule.set_type (shape_at (seen types.now) left) (shape_at (seen types.now) right) }
    ensures there { IsThere (seen types.now) left → IsThere (seen types.now) right → IsThere (seen types.now) result }
{
    if is_left(types, left, right) {
        left
    } else {
        right
    }
}

/// Whether a union, a difference or an intersection has the type of its left operand.
#[tactic(auto, using(crate::proofs::SetsLaws::sets))]
fn is_left(types: &Types, left: Operand, right: Operand) -> bool
    ensures { result ≡ keeps_left (shape_at (seen types.now) left) (shape_at (seen types.now) right) }
{
    if !types.is_constructed(left) {
        return true;
    }
    if types.base(left).is_none() {
        return false;
    }
    types.is_constructed(right) || !types.is_set(right)
}
