//! Names of constants (ISO 7185, 6.3).

ghost use Rattle.std.specs.Prelude.{◌≡◌, List, ℕ, pos, IfOk};
ghost use Rattle.pc_syntax.specs.declared.kind.Kind.TheVariants as kind;
ghost use Rattle.pc_types.specs.Shapes.{IntegerType, BooleanType};
ghost use Rattle.pc_types.specs.TypeClasses.{maxint};
ghost use Rattle.pc_types.specs.Rows.{seen};
ghost use Rattle.pc_scope.specs.Spelled.{spelling};
ghost use Rattle.pc_rules.specs.Attributes.{Node};
ghost use Rattle.pc_rules.specs.Constants.{constant_name_rule, value_of_found};
ghost use Rattle.pc_rules.specs.Meanings as rules;
ghost use Rattle.pc_rules.specs.RequiredMeanings.{required_constant};
ghost use Rattle.pc_rules.specs.Decorated.{with_kind};
ghost use Rattle.pc_facts.specs.Known.{Known};
ghost use Rattle.pc_facts.specs.Shows.{ShowsNode, ShowsName, ShowsFound, ShowsValue, ShowsValues};

use crate::constant_facts::constant_node;
use pc_facts::{Constant, Facts, Named, Sighting, Value, add_kid};
use pc_name_rules::{Allowed, add_name_entries};
use pc_scope::Builtin;
use pc_syntax::Kind;
use pc_types::Types;
use std::alloc::{AllocError, Global};

/// A constant's name, as written, and what it means; rows 1, 2 and 4. Only memory can fail.
pub fn constant_name(
    alloc: Global,
    types: &Types,
    word: &[u8],
    named: Named,
) -> Result<Facts, AllocError>
    ensures { IfOk result (λ f. (k : Known) (w : List ℕ) (n : Node) → k.table ≡ seen types.now → ShowsName k named n.at → n.at.word ≡ word.now → ShowsNode k f (with_kind kind.Cname w (constant_name_rule n))) }
{
    let value = sighted_value(types, named.sighting);
    let mut name = Vec::new(alloc);
    add_name_entries(alloc, &mut name, word, named, Allowed::Constant)?;
    let mut entries = Vec::new(alloc);
    add_kid(&mut entries, 1, name)?;
    Ok(constant_node(alloc, Kind::Cname, named.hole, entries, value))
}

/// The value of a name that means a constant.
fn sighted_value(types: &Types, sighting: Sighting) -> Option<Value>
    ensures { (k : Known) (n : List ℕ) (f : rules.Found) → k.table ≡ seen types.now → ShowsFound k n sighting f → ShowsValues k result (value_of_found f) }
{
    match sighting {
        Sighting::Here(declared) => declared.value,
        Sighting::Required(builtin) => required_value(types, builtin),
        _ => None,
    }
}

/// The value of a required constant.
fn required_value(types: &Types, builtin: Builtin) -> Option<Value>
    ensures { (k : Known) → k.table ≡ seen types.now → ShowsValues k result (required_constant (spelling builtin)) }
{
    match builtin {
        Builtin::Maxint => Some(largest(types)),
        Builtin::False => Some(truth(types, 0)),
        Builtin::True => Some(truth(types, 1)),
        _ => None,
    }
}

/// maxint.
#[tactic(auto, unfolding(pc_types::specs::TypeClasses::largest_number))]
fn largest(types: &Types) -> Value
    ensures { (k : Known) → k.table ≡ seen types.now → ShowsValue k result (record { type = IntegerType; constant = rules.Ordinal maxint }) }
{
    Value {
        of: types.integer(),
        constant: Constant::Ordinal(9_223_372_036_854_775_807),
    }
}

/// The value of Boolean with this number.
fn truth(types: &Types, number: u8) -> Value
    ensures { (k : Known) → k.table ≡ seen types.now → ShowsValue k result (record { type = BooleanType; constant = rules.Ordinal (pos number) }) }
{
    Value {
        of: types.boolean(),
        constant: Constant::Ordinal(i64::from(number)),
    }
}
