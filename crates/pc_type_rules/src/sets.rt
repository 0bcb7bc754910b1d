//! Set types (ISO 7185, 6.4.3.4).

ghost use Rattle.std.specs.Prelude.{◌≡◌, ◌<◌, ◌++◌, ℕ, List, Option, IfOk, OnOk, length, option_map};
ghost use Rattle.std.specs.Option.{ForSome};
ghost use Rattle.pc_types.specs.Shapes.{Definition as Defined, Typed, SetType};
ghost use Rattle.pc_types.specs.Table.{definition_in};
ghost use Rattle.pc_types.specs.Rows.{seen};
ghost use Rattle.pc_rules.specs.Attributes.{Entry, Node, at_kid};
ghost use Rattle.pc_rules.specs.Decorated.{with_kind};
ghost use Rattle.pc_rules.specs.Denoters.{typed, defined_here};
ghost use Rattle.pc_rules.specs.Entries.{no_ordinal};
ghost use Rattle.pc_rules.specs.Meanings.{Local};
ghost use Rattle.pc_rules.specs.StructuredTypes.{set_rule, base_too_large};
ghost use Rattle.pc_syntax.specs.declared.kind.Kind.TheVariants as kind;
ghost use Rattle.pc_facts.specs.Known.{Known};
ghost use Rattle.pc_facts.specs.Shows.{ShowsNode, ShowsType};
ghost use Rattle.pc_type_rules.specs.Extends.{Extends};
ghost use Rattle.pc_type_rules.specs.Denoted.{IsNumber};

use crate::node::denoter;
use crate::number::{made, number_of};
use crate::rows::{add_base_too_large, add_no_ordinal};
use pc_facts::{Facts, add_kid};
use pc_report::ErrorEntry;
use pc_syntax::Kind;
use pc_types::{Definition, Form, Operand, TypeId, Types};
use std::alloc::{AllocError, Global};

/// A set type, defined here; rows 8 and 9 where its base is no ordinal type, or has a value below 0 or above 255. Only memory and
/// numbers can fail.
pub fn set(
    alloc: Global,
    types: &mut Types,
    here: Definition,
    packed: bool,
    base: Facts,
) -> Result<Facts, AllocError>
    requires { here.owner.0 < length (seen types.old).owners }
    ensures shows { IfOk result (λ f. (k : Known) (w : List ℕ) (l : Local) (a : Node) → k.table ≡ seen types.old → definition_in (seen types.old).owners here ≡ defined_here l → packed ≡ l.packed → ShowsNode k base a.at → ShowsNode (record k { table = seen types.new }) f (with_kind kind.Setof w (set_rule l a))) }
    ensures extended { OnOk result (Extends (seen types.old) (seen types.new)) }
{
    let of = base.value_type();
    let hole = base.hole;
    let entries = set_entries(alloc, types, base.judgement.into_value().entries, of)?;
    let whole = set_type(alloc, types, here, packed, of)?;
    Ok(denoter(alloc, Kind::Setof, hole, entries, whole))
}

/// The entries of a set type, with those of its base.
fn set_entries(
    alloc: Global,
    types: &Types,
    base: Vec<ErrorEntry>,
    of: Option<Operand>,
) -> Result<Vec<ErrorEntry>, AllocError>
    ensures { IfOk result (λ entries. (ty : Option Typed) → ShowsType (seen types.now) of ty → entries.items ≡ at_kid 1 (base.items ++ no_ordinal ty ++ base_too_large ty)) }
{
    let mut below = base;
    add_no_ordinal(alloc, types, &mut below, of)?;
    add_base_too_large(alloc, types, &mut below, of)?;
    let mut entries = Vec::new(alloc);
    add_kid(&mut entries, 1, below)?;
    Ok(entries)
}

/// The set type of a base, where that is known.
fn set_type(
    alloc: Global,
    types: &mut Types,
    here: Definition,
    packed: bool,
    base: Option<Operand>,
) -> Result<Option<Operand>, AllocError>
    requires { here.owner.0 < length (seen types.old).owners }
    ensures shows { IfOk result (λ o. (d : Defined) (ty : Option Typed) → definition_in (seen types.old).owners here ≡ d → ShowsType (seen types.old) base ty → ShowsType (seen types.new) o (option_map (λ (t : Typed). typed (SetType d packed t.shape)) ty)) }
    ensures extended { OnOk result (Extends (seen types.old) (seen types.new)) }
{
    let number = number_of(alloc, types, here.owner, base)?;
    let whole = set_over(types, here, packed, number)?;
    Ok(whole)
}

/// The same, given the number of the base.
#[tactic(auto, using(crate::specs::ExtendsLaws::unchanged))]
fn set_over(
    types: &mut Types,
    here: Definition,
    packed: bool,
    base: Option<TypeId>,
) -> Result<Option<Operand>, AllocError>
    requires owned { here.owner.0 < length (seen types.old).owners }
    requires based { ForSome base (λ x. x.0 < length (seen types.old).shapes) }
    ensures shows { IfOk result (λ o. (d : Defined) (ty : Option Typed) → definition_in (seen types.old).owners here ≡ d → IsNumber (seen types.old) base ty → ShowsType (seen types.new) o (option_map (λ (t : Typed). typed (SetType d packed t.shape)) ty)) }
    ensures extended { OnOk result (Extends (seen types.old) (seen types.new)) }
{
    match base {
        Some(base) => {
            let whole = made(types, Form::Set(packed, base), here)?;
            Ok(whole)
        }
        None => Ok(None),
    }
}
