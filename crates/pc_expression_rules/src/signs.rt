//! Signed constants (ISO 7185, 6.3).

ghost use Rattle.std.specs.Prelude.{◌≡◌, List, ℕ, Option, option_map, neg_ℤ, IfOk};
ghost use Rattle.pc_syntax.specs.declared.kind.Kind.TheVariants as kind;
ghost use Rattle.pc_types.specs.Rows.{seen};
ghost use Rattle.pc_rules.specs.Attributes.{Node};
ghost use Rattle.pc_rules.specs.Constants as rule;
ghost use Rattle.pc_rules.specs.Meanings as rules;
ghost use Rattle.pc_rules.specs.Decorated.{with_kind};
ghost use Rattle.pc_facts.specs.Known.{Known};
ghost use Rattle.pc_facts.specs.Shows.{ShowsNode, ShowsValues, ShowsConstant};

use crate::constant_facts::constant_node;
use pc_facts::{Constant, Facts, Value, add_kid, add_note_if};
use pc_forms::Sign;
use pc_syntax::Kind;
use pc_types::Types;
use std::alloc::{AllocError, Global};

/// A constant with a sign; row 6 where it is no integer. Fails for want of memory, and for a minus before -2^63, which no constant is:
/// numerals are at most maxint.
pub fn signed_constant(
    alloc: Global,
    types: &Types,
    sign: Sign,
    constant: Facts,
) -> Result<Facts, AllocError>
    ensures { IfOk result (λ f. (k : Known) (w : List ℕ) (n : Node) → k.table ≡ seen types.now → ShowsNode k constant n.at → ShowsNode k f (with_kind kind.Csign w (rule.signed_constant_rule sign n))) }
{
    let refused = is_no_number(types, constant.constant);
    let value = signed_value(sign, constant.constant)?;
    let hole = constant.hole;
    let mut entries = Vec::new(alloc);
    add_kid(&mut entries, 1, constant.judgement.into_value().entries)?;
    add_note_if(alloc, &mut entries, refused, 6, b"not a number", b"")?;
    Ok(constant_node(alloc, Kind::Csign, hole, entries, value))
}

/// Whether a value is known and no integer.
fn is_no_number(types: &Types, value: Option<Value>) -> bool
    ensures { (k : Known) (v : Option rules.Value) → k.table ≡ seen types.now → ShowsValues k value v → result ≡ rule.is_no_number v }
{
    match value {
        Some(known) => !types.is_integer(known.of),
        None => false,
    }
}

/// What a sign makes of a value, where there is one.
fn signed_value(sign: Sign, value: Option<Value>) -> Result<Option<Value>, AllocError>
    ensures { IfOk result (λ r. (k : Known) (v : Option rules.Value) → ShowsValues k value v → ShowsValues k r (option_map (rule.signed sign) v)) }
{
    match value {
        Some(known) => {
            let constant = signed_by(sign, known.constant)?;
            Ok(Some(Value {
                of: known.of,
                constant,
            }))
        }
        None => Ok(None),
    }
}

/// What a sign makes of a constant.
fn signed_by(sign: Sign, constant: Constant) -> Result<Constant, AllocError>
    ensures { IfOk result (λ r. (k : Known) (c : rules.Constant) → ShowsConstant k constant c → ShowsConstant k r (rule.signed_constant sign c)) }
{
    match (sign, constant) {
        (Sign::Minus, Constant::Ordinal(ordinal)) => Ok(Constant::Ordinal(negated(ordinal)?)),
        _ => Ok(constant),
    }
}

/// The number with the other sign; none of 64 bits has it for -2^63.
fn negated(ordinal: i64) -> Result<i64, AllocError>
    ensures { IfOk result (λ n. n ≡ neg_ℤ ordinal) }
{
    match ordinal.checked_neg() {
        Some(other) => Ok(other),
        None => Err(AllocError),
    }
}
