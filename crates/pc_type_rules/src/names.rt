//! Types by their names (ISO 7185, 6.4.1).

ghost use Rattle.std.specs.Prelude.{◌≡◌, ℕ, List, Option, None, IfOk, if◌then◌else◌, option_map};
ghost use Rattle.std.specs.Option.{ForSome};
ghost use Rattle.pc_scope.specs.Spelled.{spelling};
ghost use Rattle.pc_types.specs.Table.{shape_at, IsThere};
ghost use Rattle.pc_types.specs.Rows.{seen};
ghost use Rattle.pc_names.specs.Standing.{meant};
ghost use Rattle.pc_rules.specs.Attributes.{Node};
ghost use Rattle.pc_rules.specs.Decorated.{with_kind};
ghost use Rattle.pc_rules.specs.Denoters.{type_name_rule, type_name_entries, type_of_found};
ghost use Rattle.pc_rules.specs.Meanings as meanings;
ghost use Rattle.pc_rules.specs.NameClasses.{is_type_class};
ghost use Rattle.pc_rules.specs.RequiredMeanings as required;
ghost use Rattle.pc_syntax.specs.declared.kind.Kind.TheVariants as kind;
ghost use Rattle.pc_facts.specs.Known.{Known};
ghost use Rattle.pc_facts.specs.Shows.{ShowsNode, ShowsName, ShowsType, ShowsMeaning, ShowsFound};

use crate::node::denoter;
use pc_facts::{Declared, Facts, Named, Sighting, add_kid};
use pc_names::NameClass;
use pc_report::ErrorEntry;
use pc_scope::Builtin;
use pc_syntax::Kind;
use pc_types::{Operand, Types};
use std::alloc::{AllocError, Global};

/// A type's name, given the entries of the name there (rows 1, 2 and 4). Only memory can fail.
pub fn type_name(
    alloc: Global,
    types: &Types,
    named: Named,
    below: Vec<ErrorEntry>,
) -> Result<Facts, AllocError>
    ensures { IfOk result (λ f. (k : Known) (w : List ℕ) (a : Node) → k.table ≡ seen types.now → ShowsName k named a.at → below.items ≡ type_name_entries a → ShowsNode k f (with_kind kind.Tname w (type_name_rule a))) }
{
    let of = type_of_sighting(types, named.sighting);
    let mut entries = Vec::new(alloc);
    add_kid(&mut entries, 1, below)?;
    Ok(denoter(alloc, Kind::Tname, named.hole, entries, of))
}

/// The type that a name means.
pub fn type_of_sighting(types: &Types, sighting: Sighting) -> Option<Operand>
    ensures { (k : Known) (n : List ℕ) (f : meanings.Found) → k.table ≡ seen types.now → ShowsFound k n sighting f → ShowsType (seen types.now) result (type_of_found f) }
{
    match sighting {
        Sighting::Here(declared) => type_of_declared(declared),
        Sighting::Required(builtin) => required_type(types, builtin),
        _ => None,
    }
}

/// The type of a declaration, if it is one of a type.
fn type_of_declared(declared: Declared) -> Option<Operand>
    ensures { (k : Known) (n : List ℕ) (m : meanings.Meaning) → ShowsMeaning k n declared m → ShowsType k.table result (type_of_found (meanings.Here m)) }
{
    let is_so = is_type(declared.class);
    where_so(is_so, declared.of)
}

/// Whether a name of this class is that of a type.
pub(crate) fn is_type(class: NameClass) -> bool
    ensures { result ≡ is_type_class (meant class) }
{
    match class {
        NameClass::Type => true,
        _ => false,
    }
}

fn where_so(is_so: bool, of: Option<Operand>) -> Option<Operand>
    ensures { result ≡ (if is_so then of else None) }
{
    if is_so { of } else { None }
}

/// The required type with this name, if it is one of a type.
fn required_type(types: &Types, name: Builtin) -> Option<Operand>
    ensures shape { option_map (shape_at (seen types.now)) result ≡ required.required_type (spelling name) }
    ensures there { ForSome result (IsThere (seen types.now)) }
{
    match name {
        Builtin::Integer => Some(types.integer()),
        Builtin::Boolean => Some(types.boolean()),
        Builtin::Char => Some(types.char_type()),
        _ => None,
    }
}
