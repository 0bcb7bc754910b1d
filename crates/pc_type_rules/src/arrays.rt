//! Array types (ISO 7185, 6.4.3.2).

ghost use Rattle.std.specs.Prelude.{◌≡◌, ◌<◌, ◌+◌, ◌++◌, ◌∷◌, [], ℕ, List, Option, Some, IfOk, OnOk, length, ◌==◌, if◌then◌else◌};
ghost use Rattle.std.specs.Option.{ForSome, option_and_then};
ghost use Rattle.pc_types.specs.Shapes.{Owner, Definition as Defined, Typed, ArrayType};
ghost use Rattle.pc_types.specs.Table.{definition_in};
ghost use Rattle.pc_types.specs.Rows.{seen};
ghost use Rattle.pc_rules.specs.Attributes.{Node, at_kid, each_kid, kids_below};
ghost use Rattle.pc_rules.specs.Decorated.{with_kind};
ghost use Rattle.pc_rules.specs.Denoters.{defined_here};
ghost use Rattle.pc_rules.specs.Meanings.{Local};
ghost use Rattle.pc_rules.specs.StructuredTypes.{array_rule, index_type_entries};
ghost use Rattle.pc_rules.specs.StructuredTypes as rule;
ghost use Rattle.pc_syntax.specs.declared.kind.Kind.TheVariants as kind;
ghost use Rattle.pc_facts.specs.Known.{Known};
ghost use Rattle.pc_facts.specs.Shows.{ShowsNode, ShowsType, AllShow};
ghost use Rattle.pc_type_rules.specs.Extends.{Extends};
ghost use Rattle.pc_type_rules.specs.Denoted.{IsNumber};
ghost use Rattle.pc_type_rules.specs.Arrays.{ShowsAt, array_of};

use crate::node::sized_denoter;
use crate::number::{if_there, made, number_of};
use crate::rows::add_no_ordinal;
use pc_facts::{Facts, add_kid, either};
use pc_report::ErrorEntry;
use pc_syntax::{Kind, Path};
use pc_types::{Definition, Form, Operand, TypeId, Types};
use std::alloc::{AllocError, Global};

/// An array type, defined here, given what is found at its index types, whether there is a hole among them, and what is found at its
/// element type: an array of arrays where there are several; row 8 at an index type that is not ordinal, row 10 where it is too large.
/// Only memory and numbers can fail.
pub fn array(
    alloc: Global,
    types: &mut Types,
    here: Definition,
    packed: bool,
    indexes: Vec<Facts>,
    hole: bool,
    element: Facts,
) -> Result<Facts, AllocError>
    requires { here.owner.0 < length (seen types.old).owners }
    ensures shows { IfOk result (λ f. (k : Known) (w : List ℕ) (l : Local) (a b : Node) → k.table ≡ seen types.old → definition_in (seen types.old).owners here ≡ defined_here l → packed ≡ l.packed → AllShow (ShowsAt k) indexes.items (kids_below a) → hole ≡ a.at.hole → ShowsNode k element b.at → ShowsNode (record k { table = seen types.new }) f (with_kind kind.Array w (array_rule l a b))) }
    ensures extended { OnOk result (Extends (seen types.old) (seen types.new)) }
{
    let all = either(hole, element.hole);
    let of = arrays(
        alloc,
        types,
        &here,
        1,
        packed,
        &indexes,
        element.value_type(),
    )?;
    let below = index_entries(alloc, types, indexes)?;
    let mut entries = Vec::new(alloc);
    add_kid(&mut entries, 1, below)?;
    add_kid(&mut entries, 2, element.judgement.into_value().entries)?;
    let facts = sized_denoter(alloc, types, Kind::Array, all, entries, of)?;
    Ok(facts)
}

/// The entries of index types, with row 8 at those that are not ordinal.
fn index_entries(
    alloc: Global,
    types: &Types,
    indexes: Vec<Facts>,
) -> Result<Vec<ErrorEntry>, AllocError>
    ensures { IfOk result (λ entries. (k : Known) (nodes : List Node) → k.table ≡ seen types.now → AllShow (ShowsAt k) indexes.items nodes → entries.items ≡ each_kid index_type_entries 1 nodes) }
{
    let mut entries = Vec::new(alloc);
    let mut i: u32 = 1;
    for index in indexes {
        let below = index_entry(alloc, types, index)?;
        add_kid(&mut entries, i, below)?;
        i = next(i)?;
    }
    Ok(entries)
}

/// Those of one.
fn index_entry(alloc: Global, types: &Types, index: Facts) -> Result<Vec<ErrorEntry>, AllocError>
    ensures { IfOk result (λ entries. (k : Known) (a : Node) → k.table ≡ seen types.now → ShowsNode k index a.at → entries.items ≡ index_type_entries a) }
{
    let of = index.value_type();
    let mut entries = index.judgement.into_value().entries;
    add_no_ordinal(alloc, types, &mut entries, of)?;
    Ok(entries)
}

/// The next number, if there is one.
fn next(i: u32) -> Result<u32, AllocError>
    ensures { IfOk result (λ n. n ≡ i + 1) }
{
    match i.checked_add(1) {
        Some(n) => Ok(n),
        None => Err(AllocError),
    }
}

/// An array of arrays, one for each index type from number i on, with these elements.
#[tactic(auto, using(crate::specs::ExtendsLaws::unchanged))]
fn arrays(
    alloc: Global,
    types: &mut Types,
    here: &Definition,
    i: u32,
    packed: bool,
    indexes: &[Facts],
    element: Option<Operand>,
) -> Result<Option<Operand>, AllocError>
    requires { here.now.owner.0 < length (seen types.old).owners }
    ensures shows { IfOk result (λ o. (k : Known) (d : Defined) (nodes : List Node) (ty : Option Typed) → k.table ≡ seen types.old → definition_in (seen types.old).owners here.now ≡ d → AllShow (ShowsAt k) indexes.now nodes → ShowsType (seen types.old) element ty → ShowsType (seen types.new) o (option_and_then (rule.arrays d i packed nodes) ty)) }
    ensures extended { OnOk result (Extends (seen types.old) (seen types.new)) }
{
    match indexes {
        [] => Ok(element),
        [index, rest @ ..] => {
            let after = next(i)?;
            let inner = arrays(alloc, types, here, after, packed, rest, element)?;
            let whole = array_at(alloc, types, here, i, packed, index.value_type(), inner)?;
            Ok(whole)
        }
    }
}

/// The array with number i, where its index type and the type of its elements are known.
fn array_at(
    alloc: Global,
    types: &mut Types,
    here: &Definition,
    i: u32,
    packed: bool,
    index: Option<Operand>,
    inner: Option<Operand>,
) -> Result<Option<Operand>, AllocError>
    requires { here.now.owner.0 < length (seen types.old).owners }
    ensures shows { IfOk result (λ o. (d : Defined) (x y : Option Typed) → definition_in (seen types.old).owners here.now ≡ d → ShowsType (seen types.old) index x → ShowsType (seen types.old) inner y → ShowsType (seen types.new) o (array_of (rule.numbered d i) packed x y)) }
    ensures extended { OnOk result (Extends (seen types.old) (seen types.new)) }
{
    let written = numbered(alloc, here, i)?;
    let by = number_of(alloc, types, written.owner, index)?;
    let of = number_of(alloc, types, written.owner, inner)?;
    let known = where_there(types, by);
    let whole = array_over(types, written, packed, known, of)?;
    Ok(whole)
}

/// The number, if there is a type with it.
fn where_there(types: &Types, of: Option<TypeId>) -> Option<TypeId>
    ensures same { ForSome of (λ d. d.0 < length (seen types.now).shapes) → result ≡ of }
    ensures there { ForSome result (λ d. d.0 < length (seen types.now).shapes) }
{
    match of {
        Some(id) => if_there(types, id),
        None => None,
    }
}

/// The same, given the numbers of both.
#[tactic(auto, using(crate::specs::ExtendsLaws::unchanged))]
fn array_over(
    types: &mut Types,
    here: Definition,
    packed: bool,
    index: Option<TypeId>,
    element: Option<TypeId>,
) -> Result<Option<Operand>, AllocError>
    requires owned { here.owner.0 < length (seen types.old).owners }
    requires indexed { ForSome index (λ x. x.0 < length (seen types.old).shapes) }
    requires filled { ForSome element (λ x. x.0 < length (seen types.old).shapes) }
    ensures shows { IfOk result (λ o. (d : Defined) (x y : Option Typed) → definition_in (seen types.old).owners here ≡ d → IsNumber (seen types.old) index x → IsNumber (seen types.old) element y → ShowsType (seen types.new) o (array_of d packed x y)) }
    ensures extended { OnOk result (Extends (seen types.old) (seen types.new)) }
{
    match (index, element) {
        (Some(by), Some(of)) => {
            let whole = made(types, Form::Array(packed, by, of), here)?;
            Ok(whole)
        }
        _ => Ok(None),
    }
}

/// The definition of the array with number i of a denoter.
fn numbered(alloc: Global, here: &Definition, i: u32) -> Result<Definition, AllocError>
    ensures definition { IfOk result (λ w. (owners : List Owner) → definition_in owners w ≡ rule.numbered (definition_in owners here.now) i) }
    ensures owner { IfOk result (λ w. w.owner ≡ here.now.owner) }
{
    let name = here.name.copy(alloc)?;
    let inside = way(alloc, &here.inside, i)?;
    Ok(Definition {
        owner: here.owner,
        name,
        number: here.number,
        inside,
    })
}

/// The way to it.
fn way(alloc: Global, inside: &Path, i: u32) -> Result<Path, AllocError>
    ensures { IfOk result (λ p. p ≡ (if i == 1 then inside.now else inside.now ++ 0 ∷ i ∷ [])) }
{
    if i == 1 {
        let same = inside.copy(alloc)?;
        Ok(same)
    } else {
        let behind = inside.child(alloc, 0)?;
        let whole = behind.child(alloc, i)?;
        Ok(whole)
    }
}
