//! Lists of fields (ISO 7185, 6.4.3.3).

ghost use Rattle.std.specs.Prelude.{◌≡◌, ◌+◌, ◌++◌, ◌∷◌, ◌||◌, [], List, ℕ, Option, None, true, false, length, IfOk, OnOk};
ghost use Rattle.pc_syntax.specs.Classes.{has};
ghost use Rattle.pc_syntax.specs.Plain.{Plain, kids_of};
ghost use Rattle.pc_syntax.specs.Sorts.{is_hole};
ghost use Rattle.pc_syntax.specs.Words as words;
ghost use Rattle.pc_syntax.specs.Words.{lowered};
ghost use Rattle.pc_syntax.specs.declared.class.Class.TheVariants as class;
ghost use Rattle.pc_rules.specs.Attributes.{at_kid};
ghost use Rattle.pc_facts.specs.Shows.{value_of};
ghost use Rattle.pc_denoters.specs.FieldNaming.{NamedSoFar};
ghost use Rattle.pc_denoters.specs.FieldRows.{lists_of, any_open_field, below_of, twice_of};

use crate::definitions::next;
use crate::enumerations::add_twice;
use crate::names::small_word;
use pc_facts::{Facts, add_kid, either};
use pc_report::ErrorEntry;
use pc_syntax::{Kind, Tree, Word};
use pc_type_rules::FieldList;
use pc_types::TypeId;
use std::alloc::{AllocError, Global};

/// The names of a list of fields in small letters, the entries of row 3 at them, as seen from the list of names, and whether there is a
/// hole among them.
#[derive(Drop)]
pub(crate) struct FieldNames {
    pub names: Vec<Word>,
    pub twice: Vec<ErrorEntry>,
    pub hole: bool,
}

/// What is found at a list of fields: its names and their type; whether there is a hole in it; its entries; and those of row 3 at its
/// names, as seen from the list of names.
#[derive(Drop)]
pub(crate) struct FieldFound {
    pub list: FieldList,
    pub hole: bool,
    pub below: Vec<ErrorEntry>,
    pub twice: Vec<ErrorEntry>,
}

/// The same of all lists of fields of a record, with the entries as seen from the node of all fields.
#[derive(Drop)]
pub(crate) struct FieldsFound {
    pub lists: Vec<FieldList>,
    pub hole: bool,
    pub below: Vec<ErrorEntry>,
    pub twice: Vec<ErrorEntry>,
}

/// The names of a list of fields, which are put behind the names of the record so far. Only memory can fail.
pub(crate) fn field_names(
    alloc: Global,
    before: &mut Vec<Word>,
    list: &Tree,
) -> Result<FieldNames, AllocError>
    requires { has class.Names list.now.kind ≡ true }
    ensures { IfOk result (λ f. NamedSoFar before.old.items before.new.items (kids_of list.now) f) }
{
    let mut found = FieldNames {
        names: Vec::new(alloc),
        twice: Vec::new(alloc),
        hole: false,
    };
    let mut i: u32 = 0;
    for kid in list.kid_slice() {
        i = next(i)?;
        add_kid_name(alloc, before, i, kid, &mut found)?;
    }
    Ok(found)
}

/// One more name of the list, or a hole in its place.
fn add_kid_name(
    alloc: Global,
    before: &mut Vec<Word>,
    i: u32,
    kid: &Tree,
    found: &mut FieldNames,
) -> Result<(), AllocError>
    requires { has class.Name kid.now.kind ≡ true }
    ensures { OnOk result ((base : List (List ℕ)) (ts : List Plain) → i ≡ 1 + length ts → NamedSoFar base before.old.items ts found.old → NamedSoFar base before.new.items (ts ++ kid.now ∷ []) found.new) }
{
    match kid.kind() {
        Kind::Name => {
            add_name(alloc, before, i, kid.word(), found)?;
        }
        _ => {
            found.hole = true;
        }
    }
    Ok(())
}

/// One more name of the list.
fn add_name(
    alloc: Global,
    before: &mut Vec<Word>,
    i: u32,
    word: &[u8],
    found: &mut FieldNames,
) -> Result<(), AllocError>
    ensures { OnOk result ((base : List (List ℕ)) (ts : List Plain) (t : Plain) → i ≡ 1 + length ts → is_hole t.kind ≡ false → t.word ≡ word.now → NamedSoFar base before.old.items ts found.old → NamedSoFar base before.new.items (ts ++ t ∷ []) found.new) }
{
    let small = small_word(alloc, word)?;
    let twice = is_among(before, small.bytes());
    add_twice(alloc, &mut found.twice, i, twice, word)?;
    let name = small_word(alloc, word)?;
    found.names.push(name)?;
    before.push(small)?;
    Ok(())
}

/// Whether the name stands among these.
fn is_among(names: &[Word], name: &[u8]) -> bool
    ensures { result ≡ words.is_among names.now name.now }
{
    let mut rest = names;
    while let [first, tail @ ..] = rest {
        if first.bytes() == name {
            return true;
        }
        rest = tail;
    }
    false
}

/// A list of fields from its names and what is found at their denoter, with the number of the type, where that is known. Only memory
/// can fail.
pub(crate) fn field_of(
    alloc: Global,
    names: FieldNames,
    kid: Facts,
    of: Option<TypeId>,
) -> Result<FieldFound, AllocError>
    ensures names { IfOk result (λ f. f.list.names ≡ names.names) }
    ensures of { IfOk result (λ f. f.list.of ≡ of) }
    ensures hole { IfOk result (λ f. f.hole ≡ (names.hole || kid.hole)) }
    ensures below { IfOk result (λ f. f.below.items ≡ at_kid 2 (value_of kid.judgement).entries.items) }
    ensures twice { IfOk result (λ f. f.twice ≡ names.twice) }
{
    let hole = either(names.hole, kid.hole);
    let mut below = Vec::new(alloc);
    add_kid(&mut below, 2, kid.judgement.into_value().entries)?;
    Ok(FieldFound {
        list: FieldList {
            names: names.names,
            of,
        },
        hole,
        below,
        twice: names.twice,
    })
}

/// A hole in the place of a list of fields.
pub(crate) fn no_field(alloc: Global) -> FieldFound
    ensures names { result.list.names.items ≡ [] }
    ensures of { result.list.of ≡ None }
    ensures hole { result.hole ≡ true }
    ensures below { result.below.items ≡ [] }
    ensures twice { result.twice.items ≡ [] }
{
    FieldFound {
        list: FieldList {
            names: Vec::new(alloc),
            of: None,
        },
        hole: true,
        below: Vec::new(alloc),
        twice: Vec::new(alloc),
    }
}

/// All lists of fields, together. Only memory and numbers can fail.
pub(crate) fn all_fields(alloc: Global, rows: Vec<FieldFound>) -> Result<FieldsFound, AllocError>
    ensures lists { IfOk result (λ f. f.lists.items ≡ lists_of rows.items) }
    ensures hole { IfOk result (λ f. f.hole ≡ any_open_field rows.items) }
    ensures below { IfOk result (λ f. f.below.items ≡ below_of 1 rows.items) }
    ensures twice { IfOk result (λ f. f.twice.items ≡ twice_of 1 rows.items) }
{
    let mut lists = Vec::new(alloc);
    let mut hole = false;
    let mut below = Vec::new(alloc);
    let mut twice = Vec::new(alloc);
    let mut i: u32 = 0;
    for row in rows {
        i = next(i)?;
        hole = either(hole, row.hole);
        add_kid(&mut below, i, row.below)?;
        let mut own = Vec::new(alloc);
        add_kid(&mut own, 1, row.twice)?;
        add_kid(&mut twice, i, own)?;
        lists.push(row.list)?;
    }
    Ok(FieldsFound {
        lists,
        hole,
        below,
        twice,
    })
}
