//! Enumerated types (ISO 7185, 6.4.2.3).

ghost use Rattle.std.specs.Prelude.{◌≡◌, ◌<◌, ◌+◌, ◌++◌, ◌∷◌, [], ℕ, List, Option, Bool, true, false, not, codes, option_map, pos, length, IfOk, OnOk};
ghost use Rattle.pc_syntax.specs.Classes.{has};
ghost use Rattle.pc_syntax.specs.Plain.{Plain, kids_of};
ghost use Rattle.pc_syntax.specs.Sorts.{is_hole};
ghost use Rattle.pc_syntax.specs.WellFormed.{IsProper};
ghost use Rattle.pc_syntax.specs.declared.class.Class.TheVariants as class;
ghost use Rattle.pc_types.specs.Shapes.{Typed};
ghost use Rattle.pc_types.specs.Table.{nobody};
ghost use Rattle.pc_forms.specs.declared.form.Form.TheVariants as form;
ghost use Rattle.pc_rules.specs.Attributes.{at_kid};
ghost use Rattle.pc_rules.specs.Denoters.{elements};
ghost use Rattle.pc_rules.specs.Entries.{note_if, quoted};
ghost use Rattle.pc_rules.specs.Meanings.{Local, Outside};
ghost use Rattle.pc_facts.specs.Shows.{ShowsType, shape_of};
ghost use Rattle.pc_places.specs.Places.{known, IsPlace, Moves};
ghost use Rattle.pc_places.specs.declared.tables.Tables.{Tables as AllTables};
ghost use Rattle.pc_denoters.specs.Goings.{AtHere, AreThere, MakesForm};
ghost use Rattle.pc_denoters.specs.Passing.{PassedSoFar, ArePassed, AreNumbered, all_known};
ghost use Rattle.pc_denoters.specs.Elements.{element};

use crate::definitions::next;
use crate::names::small_word;
use pc_facts::{Constant, Declared, Facts, Value, add_kid, add_note_if};
use pc_names::{BlockId, NameClass, NameId};
use pc_places::{Tables, complete, is_passed, number, pass};
use pc_report::ErrorEntry;
use pc_syntax::{Kind, Tree, Word};
use pc_type_rules::enumerated;
use pc_types::{Definition, Operand, OwnerId};
use sqlite_items::Items;
use std::alloc::{AllocError, Global};

/// A name of a list: its number, and whether it is the first in the block.
#[derive(Clone, Copy, Debug, PartialEq, Eq)]
pub(crate) struct Passed {
    pub name: NameId,
    pub first: bool,
}

/// The names of a list in small letters and by their numbers, holes aside, the entries of row 3 at them, as seen from the list, and
/// whether there is a hole among them.
#[derive(Drop)]
pub(crate) struct NamesFound {
    pub smalls: Vec<Word>,
    pub passed: Vec<Passed>,
    pub entries: Vec<ErrorEntry>,
    pub hole: bool,
}

/// What is found at an enumerated type that is defined here: behind it its constants are declared. Only memory and numbers can fail.
pub(crate) fn enumeration(
    alloc: Global,
    tables: &mut Tables,
    block: BlockId,
    owner: OwnerId,
    here: Definition,
    names: &Tree,
) -> Result<Facts, AllocError>
    requires there { AreThere tables.old block.0 owner.0 here }
    requires names { has class.Names names.now.kind ≡ true }
    ensures { IfOk result (λ f. (packed : Bool) → MakesForm (AtHere here packed) block.0 owner.0 tables.old tables.new (form.Enum names.now) f) }
{
    let list = pass_names(alloc, tables, block, names)?;
    let passed = list.passed;
    let mut entries = Vec::new(alloc);
    add_kid(&mut entries, 1, list.entries)?;
    let smalls = Items::from_vec(list.smalls);
    let found = enumerated(alloc, &mut tables.types, here, smalls, entries, list.hole)?;
    complete_elements(tables, block, owner, found.value_type(), &passed)?;
    Ok(found)
}

/// The names of a list stand before from now on.
fn pass_names(
    alloc: Global,
    tables: &mut Tables,
    block: BlockId,
    list: &Tree,
) -> Result<NamesFound, AllocError>
    requires block { block.0 < length tables.old.names.chains }
    requires list { has class.Names list.now.kind ≡ true }
    ensures shows { IfOk result (λ f. PassedSoFar block.0 tables.old tables.new (kids_of list.now) f) }
    ensures proper { IfOk result (λ _. IsProper list.now) }
{
    let mut found = NamesFound {
        smalls: Vec::new(alloc),
        passed: Vec::new(alloc),
        entries: Vec::new(alloc),
        hole: false,
    };
    let mut i: u32 = 0;
    for kid in list.kid_slice() {
        i = next(i)?;
        pass_kid(alloc, tables, block, i, kid, &mut found)?;
    }
    Ok(found)
}

/// One more name of the list, or a hole in its place.
fn pass_kid(
    alloc: Global,
    tables: &mut Tables,
    block: BlockId,
    i: u32,
    kid: &Tree,
    found: &mut NamesFound,
) -> Result<(), AllocError>
    requires block { block.0 < length tables.old.names.chains }
    requires name { has class.Name kid.now.kind ≡ true }
    ensures { OnOk result ((base : AllTables) (ts : List Plain) → i ≡ 1 + length ts → PassedSoFar block.0 base tables.old ts found.old → PassedSoFar block.0 base tables.new (ts ++ kid.now ∷ []) found.new) }
{
    match kid.kind() {
        Kind::Name => {
            pass_name(alloc, tables, block, i, kid.word(), found)?;
        }
        _ => {
            found.hole = true;
        }
    }
    Ok(())
}

/// One more name of the list.
fn pass_name(
    alloc: Global,
    tables: &mut Tables,
    block: BlockId,
    i: u32,
    word: &[u8],
    found: &mut NamesFound,
) -> Result<(), AllocError>
    requires { block.0 < length tables.old.names.chains }
    ensures { OnOk result ((base : AllTables) (ts : List Plain) (t : Plain) → i ≡ 1 + length ts → is_hole t.kind ≡ false → t.word ≡ word.now → PassedSoFar block.0 base tables.old ts found.old → PassedSoFar block.0 base tables.new (ts ++ t ∷ []) found.new) }
{
    let name = number(tables, word)?;
    let twice = is_passed(tables, block, name);
    add_twice(alloc, &mut found.entries, i, twice, word)?;
    pass(tables, block, name)?;
    let small = small_word(alloc, word)?;
    found.smalls.push(small)?;
    found.passed.push(Passed {
        name,
        first: !twice,
    })?;
    Ok(())
}

/// Row 3 at kid `i` of a list, where the name stands before. Only memory can fail.
pub(crate) fn add_twice(
    alloc: Global,
    entries: &mut Vec<ErrorEntry>,
    i: u32,
    twice: bool,
    word: &[u8],
) -> Result<(), AllocError>
    ensures { OnOk result (entries.new.items ≡ entries.old.items ++ at_kid i (note_if twice 3 (quoted (codes "declared twice") word.now))) }
{
    let mut own = Vec::new(alloc);
    add_note_if(alloc, &mut own, twice, 3, b"declared twice: ", word)?;
    add_kid(entries, i, own)?;
    Ok(())
}

/// The names that were first become known as the constants of a type, which has none where it isn't known.
fn complete_elements(
    tables: &mut Tables,
    block: BlockId,
    owner: OwnerId,
    of: Option<Operand>,
    passed: &[Passed],
) -> Result<(), AllocError>
    requires block { block.0 < length tables.old.names.chains }
    requires names { AreNumbered (length tables.old.names.texts) passed.now }
    ensures moves { OnOk result (Moves block.0 tables.old tables.new) }
    ensures place { OnOk result ((out : Outside) (l : Local) (p ns : List (List ℕ)) (ty : Option Typed) → IsPlace tables.old block.0 owner.0 out l → ArePassed tables.old.names.texts p passed.now ns → ShowsType (known tables.old).table of ty → IsPlace tables.new block.0 owner.0 out (record l { known = all_known p l.known (elements l.owner (shape_of ty) 0 ns) })) }
{
    let mut i: u32 = 0;
    for one in passed {
        if one.first {
            complete(tables, block, one.name, element_of(owner, one.name, i, of))?;
        }
        i = next(i)?;
    }
    Ok(())
}

/// A constant of an enumerated type, by its number.
fn element_of(owner: OwnerId, name: NameId, i: u32, of: Option<Operand>) -> Declared
    ensures { result ≡ element owner name i of }
{
    Declared {
        class: NameClass::Element,
        owner,
        name,
        value: match of {
            Some(of) => Some(Value {
                of,
                constant: Constant::Ordinal(i64::from(i)),
            }),
            None => None,
        },
        of: None,
        signature: None,
    }
}
