//! Operations, and parentheses (ISO 7185, 6.7.1, 6.7.2).

ghost use Rattle.std.specs.Prelude.{◌≡◌, List, ℕ, IfOk};
ghost use Rattle.pc_syntax.specs.declared.kind.Kind.TheVariants as kind;
ghost use Rattle.pc_types.specs.Shapes.{IntegerType, BooleanType};
ghost use Rattle.pc_types.specs.TypeClasses.{is_integer, is_boolean};
ghost use Rattle.pc_types.specs.Rows.{seen};
ghost use Rattle.pc_rules.specs.Attributes.{Node};
ghost use Rattle.pc_rules.specs.Operators as rule;
ghost use Rattle.pc_rules.specs.Decorated.{with_kind};
ghost use Rattle.pc_facts.specs.Known.{Known};
ghost use Rattle.pc_facts.specs.Shows.{ShowsNode};

use crate::operators::{one_operand, two_operands};
use crate::results::{negation_type, product_type, relation_type, signed_type, sum_type};
use pc_facts::{Facts, add_kid};
use pc_forms::{AddOperator, MulOperator, RelOperator};
use pc_syntax::Kind;
use pc_types::Types;
use std::alloc::{AllocError, Global};

/// A product of two operands; row 11 where their types don't agree with the operator. Only memory can fail.
pub fn product(
    alloc: Global,
    types: &Types,
    operator: MulOperator,
    left: Facts,
    right: Facts,
) -> Result<Facts, AllocError>
    ensures { IfOk result (λ f. (k : Known) (w : List ℕ) (a b : Node) → k.table ≡ seen types.now → ShowsNode k left a.at → ShowsNode k right b.at → ShowsNode k f (with_kind kind.Mul w (rule.binary_rule (rule.multiplied operator) a b))) }
{
    let of = product_type(types, operator, left.value_type(), right.value_type());
    Ok(two_operands(alloc, Kind::Mul, of, left, right)?)
}

/// A sum of two operands, likewise.
pub fn sum(
    alloc: Global,
    types: &Types,
    operator: AddOperator,
    left: Facts,
    right: Facts,
) -> Result<Facts, AllocError>
    ensures { IfOk result (λ f. (k : Known) (w : List ℕ) (a b : Node) → k.table ≡ seen types.now → ShowsNode k left a.at → ShowsNode k right b.at → ShowsNode k f (with_kind kind.Add w (rule.binary_rule (rule.added operator) a b))) }
{
    let of = sum_type(types, operator, left.value_type(), right.value_type());
    Ok(two_operands(alloc, Kind::Add, of, left, right)?)
}

/// A relation of two operands; row 11 where it isn't defined on their types. Only memory can fail.
pub fn relation(
    alloc: Global,
    types: &Types,
    operator: RelOperator,
    left: Facts,
    right: Facts,
) -> Result<Facts, AllocError>
    ensures { IfOk result (λ f. (k : Known) (w : List ℕ) (a b : Node) → k.table ≡ seen types.now → ShowsNode k left a.at → ShowsNode k right b.at → ShowsNode k f (with_kind kind.Rel w (rule.binary_rule (rule.compared operator) a b))) }
{
    let of = relation_type(types, operator, left.value_type(), right.value_type());
    Ok(two_operands(alloc, Kind::Rel, of, left, right)?)
}

/// A `not` before an operand; row 11 where that isn't Boolean. Only memory can fail.
pub fn negation(alloc: Global, types: &Types, operand: Facts) -> Result<Facts, AllocError>
    ensures { IfOk result (λ f. (k : Known) (w : List ℕ) (a : Node) → k.table ≡ seen types.now → ShowsNode k operand a.at → ShowsNode k f (with_kind kind.Not w (rule.unary_rule is_boolean BooleanType a))) }
{
    let of = negation_type(types, operand.value_type());
    Ok(one_operand(alloc, Kind::Not, of, operand)?)
}

/// A sign before an operand; row 11 where that is no integer. Only memory can fail.
pub fn signed(alloc: Global, types: &Types, operand: Facts) -> Result<Facts, AllocError>
    ensures { IfOk result (λ f. (k : Known) (w : List ℕ) (a : Node) → k.table ≡ seen types.now → ShowsNode k operand a.at → ShowsNode k f (with_kind kind.Sign w (rule.unary_rule is_integer IntegerType a))) }
{
    let of = signed_type(types, operand.value_type());
    Ok(one_operand(alloc, Kind::Sign, of, operand)?)
}

/// An expression in parentheses: its type is that of the expression. Only memory can fail.
pub fn parentheses(alloc: Global, inner: Facts) -> Result<Facts, AllocError>
    ensures { IfOk result (λ f. (k : Known) (w : List ℕ) (a : Node) → ShowsNode k inner a.at → ShowsNode k f (with_kind kind.Parens w (rule.parentheses_rule a))) }
{
    let of = inner.value_type();
    let hole = inner.hole;
    let mut entries = Vec::new(alloc);
    add_kid(&mut entries, 1, inner.judgement.into_value().entries)?;
    Ok(Facts::expression(Kind::Parens, hole, entries, of))
}
