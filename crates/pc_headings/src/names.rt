//! The names of a group of parameters (ISO 7185, 6.6.3.1).

ghost use Rattle.std.specs.Prelude.{◌≡◌, ◌<◌, ◌+◌, ◌++◌, ◌∷◌, [], ℕ, false, List, Option, Some, is_some, length, slice_get, if◌then◌else◌, IfOk, OnOk};
ghost use Rattle.pc_syntax.specs.Plain.{kids_of};
ghost use Rattle.pc_syntax.specs.Words.{lowered, is_among};
ghost use Rattle.pc_names.specs.Standing.{meant};
ghost use Rattle.pc_rules.specs.HandedOn.{any_hole};
ghost use Rattle.pc_rules.specs.Meanings.{Meaning, Formal as Meant, is_routine_class};
ghost use Rattle.pc_rules.specs.NameClasses as rules;
ghost use Rattle.pc_facts.specs.Known.{Known};
ghost use Rattle.pc_growth.specs.Grows.{Begins};
ghost use Rattle.pc_places.specs.Places.{known, Keeps};
ghost use Rattle.pc_places.specs.Parameters.{ShowsParameters};
ghost use Rattle.pc_headings.specs.Listing.{names_of, HasPassed, ShowsFormalsOf, with_formal, AreDeclared, AreListed, ShowsListed, ShowsGroup, named_nodes, AddsName, AddsNames};

use crate::listed::{Group, Listed};
use pc_facts::{Declared, Formal, add_kid, add_note_if, either};
use pc_name_rules::is_reference_class;
use pc_names::{DeclarationId, NameId, Names};
use pc_places::{Parameter, Tables, number};
use pc_report::ErrorEntry;
use pc_syntax::Tree;
use std::alloc::{AllocError, Global};

/// The names of a group, in order: row 3 at each that stands before in the heading, seen from their list. Only memory can fail.
pub(crate) fn add_names(
    alloc: Global,
    tables: &mut Tables,
    listed: &mut Listed,
    group: Group,
    list: &Tree,
) -> Result<Vec<ErrorEntry>, AllocError>
    ensures { IfOk result (λ found. AddsNames tables.old tables.new group listed.old listed.new (kids_of list.now) found.items) }
{
    let mut entries = Vec::new(alloc);
    let mut count = 0;
    for kid in list.kid_slice() {
        count = next(count)?;
        add_name(alloc, tables, listed, group, &mut entries, count, kid)?;
    }
    Ok(entries)
}

/// A name of a group, kid `i` of their list; a hole is none.
fn add_name(
    alloc: Global,
    tables: &mut Tables,
    listed: &mut Listed,
    group: Group,
    entries: &mut Vec<ErrorEntry>,
    i: u32,
    node: &Tree,
) -> Result<(), AllocError>
    ensures { OnOk result (AddsName tables.old tables.new group listed.old listed.new i node.now entries.old.items entries.new.items) }
{
    if node.kind().is_hole() {
        Ok(())
    } else {
        let word = node.word();
        let twice = add_word(tables, listed, group, word)?;
        let mut own = Vec::new(alloc);
        add_note_if(alloc, &mut own, twice, 3, b"declared twice: ", word)?;
        add_kid(entries, i, own)?;
        Ok(())
    }
}

/// One more parameter of a group, by its name in any case: whether that stands before in the heading.
fn add_word(
    tables: &mut Tables,
    listed: &mut Listed,
    group: Group,
    word: &[u8],
) -> Result<bool, AllocError>
    ensures keeps { OnOk result (Keeps tables.old tables.new) }
    ensures shows { IfOk result (λ twice. (es : List (List ℕ × Meaning)) (m : Meaning) → ShowsListed (known tables.old) tables.old.declarations.items listed.old es → ShowsGroup (known tables.old) group m → (twice ≡ is_among (names_of es) (lowered word.now)) × ShowsListed (known tables.new) tables.new.declarations.items listed.new (es ++ (lowered word.now, m) ∷ [])) }
    ensures declared { OnOk result (is_routine_class (meant group.class) ≡ false → AreListed tables.old listed.old → AreListed tables.new listed.new) }
{
    let name = number(tables, word)?;
    let twice = put_passed(&mut listed.passed, tables.names.name(name), word)?;
    add_first(
        &mut tables.declarations,
        &mut listed.parameters,
        twice,
        group,
        name,
    )?;
    listed.is_whole = add_formal(&mut listed.formals, listed.is_whole, group, name)?;
    Ok(twice)
}

/// One more name stands before, in small letters and as written: whether it stood before already.
fn put_passed(passed: &mut Names, small: &[u8], word: &[u8]) -> Result<bool, AllocError>
    ensures twice { IfOk result (λ twice. (ns : List (List ℕ)) → HasPassed passed.old.texts ns → twice ≡ is_among ns small.now) }
    ensures passed { OnOk result ((ns : List (List ℕ)) → HasPassed passed.old.texts ns → HasPassed passed.new.texts (ns ++ lowered word.now ∷ [])) }
{
    let twice = passed.number_of(small).is_some();
    passed.number(word)?;
    Ok(twice)
}

/// One more parameter, unless its name stands before.
fn add_first(
    declarations: &mut Vec<Declared>,
    parameters: &mut Vec<Parameter>,
    twice: bool,
    group: Group,
    name: NameId,
) -> Result<(), AllocError>
    ensures begins { OnOk result (Begins declarations.old.items declarations.new.items) }
    ensures parameters { OnOk result ((k : Known) (es : List (List ℕ × Meaning)) (n : List ℕ) (m : Meaning) → ShowsParameters k declarations.old.items parameters.old.items es → slice_get k.names name.0 ≡ Some n → ShowsGroup k group m → ShowsParameters k declarations.new.items parameters.new.items (es ++ (if twice then [] else (n, m) ∷ []))) }
    ensures declared { OnOk result ((names : ℕ) → name.0 < names → is_routine_class (meant group.class) ≡ false → AreDeclared names declarations.old.items parameters.old.items → AreDeclared names declarations.new.items parameters.new.items) }
{
    if !twice {
        add_parameter(declarations, parameters, group, name)?;
    }
    Ok(())
}

/// One more parameter, with its declaration.
fn add_parameter(
    declarations: &mut Vec<Declared>,
    parameters: &mut Vec<Parameter>,
    group: Group,
    name: NameId,
) -> Result<(), AllocError>
    ensures begins { OnOk result (Begins declarations.old.items declarations.new.items) }
    ensures parameters { OnOk result ((k : Known) (es : List (List ℕ × Meaning)) (n : List ℕ) (m : Meaning) → ShowsParameters k declarations.old.items parameters.old.items es → slice_get k.names name.0 ≡ Some n → ShowsGroup k group m → ShowsParameters k declarations.new.items parameters.new.items (es ++ (n, m) ∷ [])) }
    ensures declared { OnOk result ((names : ℕ) → name.0 < names → is_routine_class (meant group.class) ≡ false → AreDeclared names declarations.old.items parameters.old.items → AreDeclared names declarations.new.items parameters.new.items) }
{
    let id = u32_of(declarations.len())?;
    declarations.push(Declared {
        class: group.class,
        owner: group.owner,
        name,
        value: None,
        of: group.of,
        signature: None,
    })?;
    parameters.push(Parameter {
        name,
        declaration: DeclarationId(id),
    })?;
    Ok(())
}

/// One more formal parameter, given whether the type of each before is known: whether that of each is.
fn add_formal(
    formals: &mut Vec<Formal>,
    is_whole: bool,
    group: Group,
    name: NameId,
) -> Result<bool, AllocError>
    ensures { IfOk result (λ whole. (k : Known) (gs : Option (List Meant)) (n : List ℕ) (m : Meaning) → ShowsFormalsOf k is_whole formals.old.items gs → slice_get k.names name.0 ≡ Some n → ShowsGroup k group m → ShowsFormalsOf k whole formals.new.items (with_formal gs n (rules.is_reference_class m.class) m.type)) }
{
    match group.number {
        Some(of) => {
            formals.push(Formal {
                name,
                by_place: is_reference_class(group.class),
                of,
            })?;
            Ok(is_whole)
        }
        None => Ok(false),
    }
}

/// Whether a hole stands among names.
pub(crate) fn has_hole(list: &Tree) -> bool
    ensures { result ≡ any_hole (named_nodes (kids_of list.now)) }
{
    let mut hole = false;
    for kid in list.kid_slice() {
        hole = either(hole, kid.kind().is_hole());
    }
    hole
}

/// The number of the kid behind this one; fails where there is none.
pub(crate) fn next(i: u32) -> Result<u32, AllocError>
    ensures { IfOk result (λ j. j ≡ i + 1) }
{
    match i.checked_add(1) {
        Some(j) => Ok(j),
        None => Err(AllocError),
    }
}

/// The number as one of 32 bits, or no memory where there is none.
pub(crate) fn u32_of(number: usize) -> Result<u32, AllocError>
    ensures { IfOk result (λ n. n ≡ number) }
{
    u32::try_from(number).map_err(|_| AllocError)
}
