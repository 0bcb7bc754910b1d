//! Enumerated types (ISO 7185, 6.4.2.3).

ghost use Rattle.std.specs.Prelude.{◌≡◌, ◌<◌, ℕ, List, IfOk, OnOk, length};
ghost use Rattle.pc_types.specs.Table.{definition_in};
ghost use Rattle.pc_types.specs.Rows.{seen};
ghost use Rattle.pc_rules.specs.Attributes.{Node, at_kid, kids_below};
ghost use Rattle.pc_rules.specs.DeclaringNames.{names_in, repeats};
ghost use Rattle.pc_rules.specs.Decorated.{with_kind};
ghost use Rattle.pc_rules.specs.Denoters.{defined_here, enumerated_rule};
ghost use Rattle.pc_rules.specs.Meanings.{Local};
ghost use Rattle.pc_syntax.specs.declared.kind.Kind.TheVariants as kind;
ghost use Rattle.pc_facts.specs.Known.{Known};
ghost use Rattle.pc_facts.specs.Shows.{ShowsNode};
ghost use Rattle.pc_type_rules.specs.Extends.{Extends};

use crate::node::denoter;
use crate::number::made;
use pc_facts::Facts;
use pc_report::ErrorEntry;
use pc_syntax::{Kind, Word};
use pc_types::{Definition, Form, Types};
use sqlite_items::Items;
use std::alloc::{AllocError, Global};

/// An enumerated type, defined here, given its constants in small letters, the entries of row 3 at them, and whether there is a hole
/// among them. Only memory and numbers can fail.
pub fn enumerated(
    alloc: Global,
    types: &mut Types,
    here: Definition,
    names: Items<Word>,
    entries: Vec<ErrorEntry>,
    hole: bool,
) -> Result<Facts, AllocError>
    requires { here.owner.0 < length (seen types.old).owners }
    ensures shows { IfOk result (λ f. (k : Known) (w : List ℕ) (l : Local) (a : Node) → definition_in (seen types.old).owners here ≡ defined_here l → a.at.hole ≡ hole → names ≡ names_in (kids_below a) → entries.items ≡ at_kid 1 (repeats l.passed 1 (kids_below a)) → ShowsNode (record k { table = seen types.new }) f (with_kind kind.Enum w (enumerated_rule l a))) }
    ensures extended { OnOk result (Extends (seen types.old) (seen types.new)) }
{
    let whole = made(types, Form::Named(names), here)?;
    Ok(denoter(alloc, Kind::Enum, hole, entries, whole))
}
