//! Packed types, and records without fields (ISO 7185, 6.4.3).

ghost use Rattle.std.specs.Prelude.{◌≡◌, ◌<◌, ℕ, List, IfOk, OnOk, length};
ghost use Rattle.pc_types.specs.Table.{definition_in};
ghost use Rattle.pc_types.specs.Rows.{seen};
ghost use Rattle.pc_rules.specs.Attributes.{Node};
ghost use Rattle.pc_rules.specs.Decorated.{with_kind};
ghost use Rattle.pc_rules.specs.Denoters.{defined_here};
ghost use Rattle.pc_rules.specs.Meanings.{Local};
ghost use Rattle.pc_rules.specs.StructuredTypes.{packed_rule, no_fields_rule};
ghost use Rattle.pc_syntax.specs.declared.kind.Kind.TheVariants as kind;
ghost use Rattle.pc_facts.specs.Known.{Known};
ghost use Rattle.pc_facts.specs.Shows.{ShowsNode};
ghost use Rattle.pc_type_rules.specs.Extends.{Extends};

use crate::node::denoter;
use crate::number::made;
use pc_facts::{Facts, add_kid};
use pc_syntax::Kind;
use pc_types::{Definition, Form, Types};
use sqlite_items::Items;
use std::alloc::{AllocError, Global};

/// A packed type: what stands behind the word. Only memory can fail.
pub fn packed(alloc: Global, unpacked: Facts) -> Result<Facts, AllocError>
    ensures { IfOk result (λ f. (k : Known) (w : List ℕ) (a : Node) → ShowsNode k unpacked a.at → ShowsNode k f (with_kind kind.Packed w (packed_rule a))) }
{
    let of = unpacked.value_type();
    let hole = unpacked.hole;
    let mut entries = Vec::new(alloc);
    add_kid(&mut entries, 1, unpacked.judgement.into_value().entries)?;
    Ok(denoter(alloc, Kind::Packed, hole, entries, of))
}

/// A record type without fields, defined here. Only memory and numbers can fail.
pub fn no_fields(
    alloc: Global,
    types: &mut Types,
    here: Definition,
    packed: bool,
) -> Result<Facts, AllocError>
    requires { here.owner.0 < length (seen types.old).owners }
    ensures shows { IfOk result (λ f. (k : Known) (w : List ℕ) (l : Local) → definition_in (seen types.old).owners here ≡ defined_here l → packed ≡ l.packed → ShowsNode (record k { table = seen types.new }) f (with_kind kind.Record0 w (no_fields_rule l))) }
    ensures extended { OnOk result (Extends (seen types.old) (seen types.new)) }
{
    let whole = made(types, Form::Record(packed, Items::new(alloc)), here)?;
    Ok(denoter(alloc, Kind::Record0, false, Vec::new(alloc), whole))
}
