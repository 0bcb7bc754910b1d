//! Subrange types (ISO 7185, 6.4.2.4).

ghost use Rattle.std.specs.Prelude.{◌≡◌, ◌<◌, ℕ, ℤ, List, Option, Some, IfOk, OnOk, length, option_map};
ghost use Rattle.std.specs.Option.{ForSome, option_and_then};
ghost use Rattle.pc_types.specs.Shapes.{Definition as Defined, Shape, Typed, SubrangeType};
ghost use Rattle.pc_types.specs.Table.{definition_in, shape_at, IsThere};
ghost use Rattle.pc_types.specs.Rows.{seen};
ghost use Rattle.pc_rules.specs.Attributes.{Node};
ghost use Rattle.pc_rules.specs.Decorated.{with_kind};
ghost use Rattle.pc_rules.specs.Denoters.{typed, defined_here, subrange_rule, subrange_of, bounded};
ghost use Rattle.pc_rules.specs.Denoters as rule;
ghost use Rattle.pc_rules.specs.Meanings as meanings;
ghost use Rattle.pc_rules.specs.Meanings.{Local};
ghost use Rattle.pc_syntax.specs.declared.kind.Kind.TheVariants as kind;
ghost use Rattle.pc_facts.specs.Known.{Known};
ghost use Rattle.pc_facts.specs.Shows.{ShowsNode, ShowsType, ShowsConstant, ShowsValue, ShowsValues};
ghost use Rattle.pc_facts.specs.declared.sighting.Constant.TheVariants as constants;
ghost use Rattle.pc_type_rules.specs.Extends.{Extends};
ghost use Rattle.pc_type_rules.specs.Denoted.{IsNumber};

use crate::node::denoter;
use crate::number::{made, number_of};
use pc_facts::{Constant, Facts, Value, add_kid, add_note_if, either};
use pc_syntax::Kind;
use pc_types::{Definition, Form, Operand, TypeId, Types};
use std::alloc::{AllocError, Global};

/// A subrange, defined here; row 7 where both constants are known, and aren't of one ordinal type and in order. Only memory and
/// numbers can fail.
pub fn subrange(
    alloc: Global,
    types: &mut Types,
    here: Definition,
    low: Facts,
    high: Facts,
) -> Result<Facts, AllocError>
    requires { here.owner.0 < length (seen types.old).owners }
    ensures shows { IfOk result (λ f. (k : Known) (w : List ℕ) (l : Local) (a b : Node) → k.table ≡ seen types.old → definition_in (seen types.old).owners here ≡ defined_here l → ShowsNode k low a.at → ShowsNode k high b.at → ShowsNode (record k { table = seen types.new }) f (with_kind kind.Subrange w (subrange_rule l a b))) }
    ensures extended { OnOk result (Extends (seen types.old) (seen types.new)) }
{
    let first = low.constant;
    let last = high.constant;
    let hole = either(low.hole, high.hole);
    let mut entries = Vec::new(alloc);
    add_kid(&mut entries, 1, low.judgement.into_value().entries)?;
    add_kid(&mut entries, 2, high.judgement.into_value().entries)?;
    let bad = has_bad_bounds(types, first, last);
    add_note_if(alloc, &mut entries, bad, 7, b"bad bounds", b"")?;
    let of = subrange_between(alloc, types, here, first, last)?;
    Ok(denoter(alloc, Kind::Subrange, hole, entries, of))
}

/// Whether both constants are known, and aren't of one ordinal type and in order.
fn has_bad_bounds(types: &Types, first: Option<Value>, last: Option<Value>) -> bool
    ensures { (k : Known) (a b : Option meanings.Value) → k.table ≡ seen types.now → ShowsValues k first a → ShowsValues k last b → result ≡ rule.has_bad_bounds a b }
{
    match (first, last) {
        (Some(low), Some(high)) => are_bad_bounds(types, low, high),
        _ => false,
    }
}

fn are_bad_bounds(types: &Types, low: Value, high: Value) -> bool
    ensures { (k : Known) (a b : meanings.Value) → k.table ≡ seen types.now → ShowsValue k low a → ShowsValue k high b → result ≡ rule.has_bad_bounds (Some a) (Some b) }
{
    let ordinal = types.is_ordinal(low.of);
    let same = types.same(low.of, high.of);
    !(ordinal && same && is_in_order(low.constant, high.constant))
}

/// Whether two constants are ordinals in order.
fn is_in_order(low: Constant, high: Constant) -> bool
    ensures { (k : Known) (a b : meanings.Constant) → ShowsConstant k low a → ShowsConstant k high b → result ≡ rule.is_in_order a b }
{
    match (low, high) {
        (Constant::Ordinal(low), Constant::Ordinal(high)) => low <= high,
        _ => false,
    }
}

/// The subrange between two constants, where both are known ordinals.
#[tactic(auto, using(crate::specs::ExtendsLaws::unchanged))]
fn subrange_between(
    alloc: Global,
    types: &mut Types,
    here: Definition,
    first: Option<Value>,
    last: Option<Value>,
) -> Result<Option<Operand>, AllocError>
    requires { here.owner.0 < length (seen types.old).owners }
    ensures shows { IfOk result (λ o. (k : Known) (d : Defined) (a b : Option meanings.Value) → k.table ≡ seen types.old → definition_in (seen types.old).owners here ≡ d → ShowsValues k first a → ShowsValues k last b → ShowsType (seen types.new) o (option_map typed (option_and_then (λ (x : meanings.Value). option_and_then (subrange_of d x) b) a))) }
    ensures extended { OnOk result (Extends (seen types.old) (seen types.new)) }
{
    match (first, last) {
        (Some(low), Some(high)) => {
            let of = bounded(alloc, types, here, low.of, low.constant, high.constant)?;
            Ok(of)
        }
        _ => Ok(None),
    }
}

/// The subrange of a host from one constant to another, where both are ordinals.
#[tactic(auto, using(crate::specs::ExtendsLaws::unchanged))]
fn bounded(
    alloc: Global,
    types: &mut Types,
    here: Definition,
    host: Operand,
    low: Constant,
    high: Constant,
) -> Result<Option<Operand>, AllocError>
    requires { here.owner.0 < length (seen types.old).owners }
    ensures shows { IfOk result (λ o. (k : Known) (d : Defined) (t : Shape) (a b : meanings.Constant) → definition_in (seen types.old).owners here ≡ d → shape_at (seen types.old) host ≡ t → IsThere (seen types.old) host → ShowsConstant k low a → ShowsConstant k high b → ShowsType (seen types.new) o (option_map typed (rule.bounded d t a b))) }
    ensures extended { OnOk result (Extends (seen types.old) (seen types.new)) }
{
    match (low, high) {
        (Constant::Ordinal(_), Constant::Ordinal(_)) => {
            let first = ordinal_of(low);
            let last = ordinal_of(high);
            let of = subrange_in(alloc, types, here, host, first, last)?;
            Ok(of)
        }
        _ => Ok(None),
    }
}

/// The number of an ordinal; 0 for a string, which has none.
fn ordinal_of(constant: Constant) -> i64
    ensures { (i : ℤ) → constant ≡ constants.Ordinal i → result ≡ i }
{
    match constant {
        Constant::Ordinal(i) => i,
        Constant::Chars(_) => 0,
    }
}

/// The subrange of a host from one ordinal to another.
fn subrange_in(
    alloc: Global,
    types: &mut Types,
    here: Definition,
    host: Operand,
    low: i64,
    high: i64,
) -> Result<Option<Operand>, AllocError>
    requires { here.owner.0 < length (seen types.old).owners }
    ensures shows { IfOk result (λ o. (d : Defined) (t : Shape) → definition_in (seen types.old).owners here ≡ d → shape_at (seen types.old) host ≡ t → IsThere (seen types.old) host → ShowsType (seen types.new) o (Some (typed (SubrangeType d t low high)))) }
    ensures extended { OnOk result (Extends (seen types.old) (seen types.new)) }
{
    let number = number_of(alloc, types, here.owner, Some(host))?;
    let of = subrange_over(types, here, number, low, high)?;
    Ok(of)
}

/// The same, given the number of the host.
#[tactic(auto, using(crate::specs::ExtendsLaws::unchanged))]
fn subrange_over(
    types: &mut Types,
    here: Definition,
    host: Option<TypeId>,
    low: i64,
    high: i64,
) -> Result<Option<Operand>, AllocError>
    requires owned { here.owner.0 < length (seen types.old).owners }
    requires hosted { ForSome host (λ x. x.0 < length (seen types.old).shapes) }
    ensures shows { IfOk result (λ o. (d : Defined) (t : Typed) → definition_in (seen types.old).owners here ≡ d → IsNumber (seen types.old) host (Some t) → ShowsType (seen types.new) o (Some (typed (SubrangeType d t.shape low high)))) }
    ensures extended { OnOk result (Extends (seen types.old) (seen types.new)) }
{
    match host {
        Some(host) => {
            let of = made(types, Form::Subrange(host, low, high), here)?;
            Ok(of)
        }
        None => Ok(None),
    }
}
