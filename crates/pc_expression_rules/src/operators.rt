//! Nodes of operators.

ghost use Rattle.std.specs.Prelude.{◌≡◌, ◌∷◌, [], ◌&&◌, List, ℕ, Option, IfOk};
ghost use Rattle.std.specs.Option.{is_some};
ghost use Rattle.pc_types.specs.Shapes.{Typed};
ghost use Rattle.pc_rules.specs.Attributes.{Node};
ghost use Rattle.pc_rules.specs.Operators.{operator_node};
ghost use Rattle.pc_rules.specs.Decorated.{with_kind};
ghost use Rattle.pc_facts.specs.Known.{Known};
ghost use Rattle.pc_facts.specs.Shows.{ShowsNode, ShowsType};

use pc_facts::{Facts, add_kid, add_note_if, both, either, is_known, is_unknown};
use pc_syntax::Kind;
use pc_types::Operand;
use std::alloc::{AllocError, Global};

/// A node of an operator with two operands, given the type that these make, if they do; row 11 where both have types and there is
/// none. Only memory can fail.
pub fn two_operands(
    alloc: Global,
    kind: Kind,
    of: Option<Operand>,
    left: Facts,
    right: Facts,
) -> Result<Facts, AllocError>
    ensures { IfOk result (λ f. (k : Known) (w : List ℕ) (a b : Node) (ty : Option Typed) → ShowsNode k left a.at → ShowsNode k right b.at → ShowsType k.table of ty → ShowsNode k f (with_kind kind w (operator_node (a ∷ b ∷ []) (is_some a.as_value.type && is_some b.as_value.type) ty))) }
{
    let known = both(is_known(left.value_type()), is_known(right.value_type()));
    let hole = either(left.hole, right.hole);
    let mut entries = Vec::new(alloc);
    add_kid(&mut entries, 1, left.judgement.into_value().entries)?;
    add_kid(&mut entries, 2, right.judgement.into_value().entries)?;
    add_note_if(
        alloc,
        &mut entries,
        both(known, is_unknown(of)),
        11,
        b"types do not agree",
        b"",
    )?;
    Ok(Facts::expression(kind, hole, entries, of))
}

/// A node of an operator with one operand, likewise.
pub fn one_operand(
    alloc: Global,
    kind: Kind,
    of: Option<Operand>,
    operand: Facts,
) -> Result<Facts, AllocError>
    ensures { IfOk result (λ f. (k : Known) (w : List ℕ) (a : Node) (ty : Option Typed) → ShowsNode k operand a.at → ShowsType k.table of ty → ShowsNode k f (with_kind kind w (operator_node (a ∷ []) (is_some a.as_value.type) ty))) }
{
    let known = is_known(operand.value_type());
    let hole = operand.hole;
    let mut entries = Vec::new(alloc);
    add_kid(&mut entries, 1, operand.judgement.into_value().entries)?;
    add_note_if(
        alloc,
        &mut entries,
        both(known, is_unknown(of)),
        11,
        b"types do not agree",
        b"",
    )?;
    Ok(Facts::expression(kind, hole, entries, of))
}
