//! Record types (ISO 7185, 6.4.3.3).

ghost use Rattle.std.specs.Prelude.{◌≡◌, ◌<◌, ◌++◌, ℕ, Bool, List, [], Option, Some, None, IfOk, OnOk, IsTrue, length, option_map, true, false};
ghost use Rattle.std.specs.Option.{is_some};
ghost use Rattle.pc_types.specs.Shapes.{Definition as Defined, Typed, RecordType};
ghost use Rattle.pc_types.specs.Table.{definition_in, FieldsThere, fields_from};
ghost use Rattle.pc_types.specs.Rows.{seen};
ghost use Rattle.pc_rules.specs.Attributes.{Node, kids_below};
ghost use Rattle.pc_rules.specs.Decorated.{with_kind};
ghost use Rattle.pc_rules.specs.Denoters.{defined_here};
ghost use Rattle.pc_rules.specs.Meanings.{Local};
ghost use Rattle.pc_rules.specs.StructuredTypes.{record_rule, field_repeats, row_of, Row};
ghost use Rattle.pc_syntax.specs.declared.kind.Kind.TheVariants as kind;
ghost use Rattle.pc_facts.specs.Known.{Known};
ghost use Rattle.pc_facts.specs.Shows.{ShowsNode, ShowsType, AllShow};
ghost use Rattle.pc_type_rules.specs.Extends.{Extends};
ghost use Rattle.pc_type_rules.specs.Records.{ShowsFields, number_or, fields_with, all_fields, all_known};
ghost use Rattle.pc_type_rules.specs.Records as fields;

use crate::node::sized_denoter;
use crate::number::made;
use pc_facts::{Facts, add_kid, both};
use pc_report::ErrorEntry;
use pc_syntax::{Kind, Word};
use pc_types::{Definition, Form, Operand, TypeId, Types};
use sqlite_items::Items;
use std::alloc::{AllocError, Global};

/// A list of fields of one type: their names in small letters, and the number of the type, where that is known.
#[derive(Drop)]
pub struct FieldList {
    pub names: Vec<Word>,
    pub of: Option<TypeId>,
}

/// A record type, defined here, given its lists of fields, whether there is a hole among them, their entries, and those of row 3 at
/// their names, both as seen from the node of all fields; row 10 where it is too large. Only memory and numbers can fail.
pub fn record_type(
    alloc: Global,
    types: &mut Types,
    here: Definition,
    packed: bool,
    lists: Vec<FieldList>,
    hole: bool,
    below: Vec<ErrorEntry>,
    twice: Vec<ErrorEntry>,
) -> Result<Facts, AllocError>
    requires { here.owner.0 < length (seen types.old).owners }
    ensures shows { IfOk result (λ f. (k : Known) (w : List ℕ) (l : Local) (a : Node) → definition_in (seen types.old).owners here ≡ defined_here l → packed ≡ l.packed → AllShow (ShowsFields (seen types.old)) lists.items (kids_below a) → a.at.hole ≡ hole → below.items ≡ a.as_value.entries → twice.items ≡ field_repeats [] 1 (kids_below a) → ShowsNode (record k { table = seen types.new }) f (with_kind kind.Record w (record_rule l a))) }
    ensures extended { OnOk result (Extends (seen types.old) (seen types.new)) }
{
    let mut entries = Vec::new(alloc);
    add_kid(&mut entries, 1, below)?;
    add_kid(&mut entries, 1, twice)?;
    let whole = record_of(alloc, types, here, packed, lists)?;
    let facts = sized_denoter(alloc, types, Kind::Record, hole, entries, whole)?;
    Ok(facts)
}

/// The record of lists of fields, where the type of each is known.
fn record_of(
    alloc: Global,
    types: &mut Types,
    here: Definition,
    packed: bool,
    lists: Vec<FieldList>,
) -> Result<Option<Operand>, AllocError>
    requires { here.owner.0 < length (seen types.old).owners }
    ensures shows { IfOk result (λ o. (d : Defined) (nodes : List Node) → definition_in (seen types.old).owners here ≡ d → AllShow (ShowsFields (seen types.old)) lists.items nodes → ShowsType (seen types.new) o (option_map (λ (r : Row). let t : Typed = record { shape = RecordType d packed r.fields; domains = r.domains } in t) (row_of nodes))) }
    ensures extended { OnOk result (Extends (seen types.old) (seen types.new)) }
{
    let known = are_known(&lists);
    let fields = fields_of(alloc, lists)?;
    let whole = record_over(types, here, packed, known, fields)?;
    Ok(whole)
}

/// The record with these fields, where their types are known, and there.
#[tactic(auto, using(crate::specs::ExtendsLaws::unchanged))]
fn record_over(
    types: &mut Types,
    here: Definition,
    packed: bool,
    known: bool,
    fields: Vec<(Word, TypeId)>,
) -> Result<Option<Operand>, AllocError>
    requires { here.owner.0 < length (seen types.old).owners }
    ensures unknown { IfOk result (λ o. known ≡ false → o ≡ None) }
    ensures shows { IfOk result (λ o. (t : Typed) (d : Defined) → known ≡ true → FieldsThere (length (seen types.old).shapes) fields.items → definition_in (seen types.old).owners here ≡ d → t.shape ≡ RecordType d packed (fields_from (seen types.old).shapes fields.items) → ShowsType (seen types.new) o (Some t)) }
    ensures extended { OnOk result (Extends (seen types.old) (seen types.new)) }
{
    if known && are_there(types, &fields) {
        let whole = made(types, Form::Record(packed, Items::from_vec(fields)), here)?;
        Ok(whole)
    } else {
        Ok(None)
    }
}

/// Whether the types of these fields are there.
fn are_there(types: &Types, fields: &[(Word, TypeId)]) -> bool
    ensures there { IsTrue result → FieldsThere (length (seen types.now).shapes) fields.now }
    ensures all { FieldsThere (length (seen types.now).shapes) fields.now → IsTrue result }
{
    let mut rest = fields;
    while let [field, tail @ ..] = rest {
        if (field.1.0 as usize) >= types.count() {
            return false;
        }
        rest = tail;
    }
    true
}

/// Whether the type of each list is known.
fn are_known(lists: &[FieldList]) -> bool
    ensures { result ≡ all_known lists.now }
{
    let mut rest = lists;
    while let [list, tail @ ..] = rest {
        if list.of.is_none() {
            return false;
        }
        rest = tail;
    }
    true
}

/// The fields of all lists, in order.
fn fields_of(alloc: Global, lists: Vec<FieldList>) -> Result<Vec<(Word, TypeId)>, AllocError>
    ensures { IfOk result (λ fields. fields.items ≡ all_fields lists.items) }
{
    let mut fields = Vec::new(alloc);
    for list in lists {
        add_fields(&mut fields, list.names, number_or(list.of))?;
    }
    Ok(fields)
}

/// The number, or that of integer where there is none.
fn number_or(of: Option<TypeId>) -> TypeId
    ensures { result ≡ fields.number_or of }
{
    match of {
        Some(id) => id,
        None => TypeId::INTEGER,
    }
}

/// Adds fields with these names and one type.
fn add_fields(
    fields: &mut Vec<(Word, TypeId)>,
    names: Vec<Word>,
    of: TypeId,
) -> Result<(), AllocError>
    ensures { OnOk result (fields.new.items ≡ fields.old.items ++ fields_with of names.items) }
{
    for name in names {
        fields.push((name, of))?;
    }
    Ok(())
}
