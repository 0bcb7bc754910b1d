//! Nodes of constants.

ghost use Rattle.std.specs.Prelude.{◌≡◌, ◌||◌, not, if◌then◌else◌, List, ℕ, [], Bool, None, Option, false, option_map};
ghost use Rattle.pc_rules.specs.Attributes.{Entry, is_empty};
ghost use Rattle.pc_rules.specs.Constants as rule;
ghost use Rattle.pc_rules.specs.Meanings as rules;
ghost use Rattle.pc_rules.specs.Decorated.{with_kind};
ghost use Rattle.pc_facts.specs.Known.{Known};
ghost use Rattle.pc_facts.specs.Shows.{ShowsNode, ShowsValues};

use pc_facts::{Facts, Judged, Judgement, Value};
use pc_report::ErrorEntry;
use pc_syntax::Kind;
use pc_types::Operand;
use std::alloc::Global;

/// A constant with its entries and its kids', and its value, where it has neither an error nor a hole.
pub fn constant_node(
    alloc: Global,
    kind: Kind,
    hole: bool,
    entries: Vec<ErrorEntry>,
    value: Option<Value>,
) -> Facts
    ensures { (k : Known) (w : List ℕ) (h : Bool) (es : List Entry) (v : Option rules.Value) → h ≡ hole → entries.items ≡ es → (h ≡ false → es ≡ [] → ShowsValues k value v) → ShowsNode k result (with_kind kind w (rule.constant_node h es v)) }
{
    let constant = value_of_parts(hole, &entries, value);
    let judged = Judged::of_parts(hole, entries, type_of_value(value));
    let place = Judged::nothing(alloc);
    let target = Judged::nothing(alloc);
    Facts {
        kind,
        hole,
        judgement: Judgement::ByUse(judged, place, target),
        constant,
        variable: None,
        packed_part: false,
    }
}

/// The value where there is neither an entry nor a hole.
fn value_of_parts(hole: bool, entries: &Vec<ErrorEntry>, value: Option<Value>) -> Option<Value>
    ensures { result ≡ (if hole || not (is_empty entries.now.items) then None else value) }
{
    if hole || !entries.is_empty() {
        None
    } else {
        value
    }
}

/// The type of a value, where there is one.
fn type_of_value(value: Option<Value>) -> Option<Operand>
    ensures { result ≡ option_map (λ v. v.of) value }
{
    match value {
        Some(known) => Some(known.of),
        None => None,
    }
}
