//! Pointer types (ISO 7185, 6.4.4).

ghost use Rattle.std.specs.Prelude.{◌≡◌, ◌<◌, ℕ, List, [], Option, Some, IfOk, OnOk, length, option_map, if◌then◌else◌};
ghost use Rattle.std.specs.Option.{ForSome};
ghost use Rattle.pc_syntax.specs.Words.{lowered};
ghost use Rattle.pc_types.specs.Table.{definition_in, place_at};
ghost use Rattle.pc_types.specs.Rows.{seen};
ghost use Rattle.pc_rules.specs.Attributes.{Node};
ghost use Rattle.pc_rules.specs.Decorated.{with_kind};
ghost use Rattle.pc_rules.specs.Denoters.{defined_here, pointer_rule, pointer_to, type_name_entries, is_later_type};
ghost use Rattle.pc_rules.specs.Meanings as meanings;
ghost use Rattle.pc_rules.specs.Meanings.{Local};
ghost use Rattle.pc_syntax.specs.declared.kind.Kind.TheVariants as kind;
ghost use Rattle.pc_facts.specs.Known.{Known};
ghost use Rattle.pc_facts.specs.Shows.{ShowsNode, ShowsName, ShowsFound, ShowsType};
ghost use Rattle.pc_type_rules.specs.Extends.{Extends};
ghost use Rattle.pc_type_rules.specs.Denoted.{domain_of};

use crate::names::is_type;
use crate::node::denoter;
use crate::number::made;
use pc_facts::{Facts, Named, Sighting, add_kid};
use pc_report::ErrorEntry;
use pc_syntax::Kind;
use pc_types::{Definition, DomainId, Form, Operand, Types};
use std::alloc::{AllocError, Global};

/// A pointer type, defined here, given the number of its domain, where its name has a meaning, and the entries of the name there
/// (rows 1, 2 and 4); a type that the block declares later brings none. Only memory and numbers can fail.
pub fn pointer(
    alloc: Global,
    types: &mut Types,
    here: Definition,
    named: Named,
    domain: Option<DomainId>,
    below: Vec<ErrorEntry>,
) -> Result<Facts, AllocError>
    requires { here.owner.0 < length (seen types.old).owners }
    ensures shows { IfOk result (λ f. (k : Known) (w : List ℕ) (l : Local) (a : Node) → k.table ≡ seen types.old → definition_in (seen types.old).owners here ≡ defined_here l → ShowsName k named a.at → ForSome domain (λ d. d.0 < length (seen types.old).domains) → option_map (place_at (seen types.old)) domain ≡ domain_of l (lowered a.word) a.found → below.items ≡ type_name_entries a → ShowsNode (record k { table = seen types.new }) f (with_kind kind.Pointer w (pointer_rule l a))) }
    ensures extended { OnOk result (Extends (seen types.old) (seen types.new)) }
{
    let later = is_later(named.sighting);
    let mut entries = Vec::new(alloc);
    add_kid(&mut entries, 1, unless(alloc, later, below))?;
    let known = where_there(types, domain);
    let whole = pointer_type(types, here, known)?;
    Ok(denoter(alloc, Kind::Pointer, named.hole, entries, whole))
}

/// Whether a name means a type that is declared later.
fn is_later(sighting: Sighting) -> bool
    ensures { (k : Known) (n : List ℕ) (f : meanings.Found) → ShowsFound k n sighting f → result ≡ is_later_type f }
{
    match sighting {
        Sighting::Later(class) => is_type(class),
        _ => false,
    }
}

/// The entries, or none where so.
fn unless(alloc: Global, is_so: bool, entries: Vec<ErrorEntry>) -> Vec<ErrorEntry>
    ensures { result.items ≡ (if is_so then [] else entries.items) }
{
    if is_so { Vec::new(alloc) } else { entries }
}

/// The number of a domain, if there is one with it.
fn where_there(types: &Types, domain: Option<DomainId>) -> Option<DomainId>
    ensures same { ForSome domain (λ d. d.0 < length (seen types.now).domains) → result ≡ domain }
    ensures there { ForSome result (λ d. d.0 < length (seen types.now).domains) }
{
    match domain {
        Some(id) => if_there(types, id),
        None => None,
    }
}

fn if_there(types: &Types, id: DomainId) -> Option<DomainId>
    ensures same { id.0 < length (seen types.now).domains → result ≡ Some id }
    ensures there { ForSome result (λ d. d.0 < length (seen types.now).domains) }
{
    if (id.0 as usize) < types.count_domains() {
        Some(id)
    } else {
        None
    }
}

/// The type of pointers to a domain, where there is one.
#[tactic(auto, using(crate::specs::ExtendsLaws::unchanged))]
fn pointer_type(
    types: &mut Types,
    here: Definition,
    domain: Option<DomainId>,
) -> Result<Option<Operand>, AllocError>
    requires owned { here.owner.0 < length (seen types.old).owners }
    requires known { ForSome domain (λ d. d.0 < length (seen types.old).domains) }
    ensures shows { IfOk result (λ o. (l : Local) (n : List ℕ) (f : meanings.Found) → definition_in (seen types.old).owners here ≡ defined_here l → option_map (place_at (seen types.old)) domain ≡ domain_of l n f → ShowsType (seen types.new) o (pointer_to l n f)) }
    ensures extended { OnOk result (Extends (seen types.old) (seen types.new)) }
{
    match domain {
        Some(id) => {
            let whole = made(types, Form::Pointer(id), here)?;
            Ok(whole)
        }
        None => Ok(None),
    }
}
