//! Control variables of for statements, and their bounds (ISO 7185, 6.8.3.9).

ghost use Rattle.std.specs.Prelude.{◌≡◌, ◌||◌, ◌++◌, ◌&&◌, List, ℕ, Option, option_map, get_or, IfOk, OnOk};
ghost use Rattle.pc_syntax.specs.Words.{lowered};
ghost use Rattle.pc_syntax.specs.Sorts.{is_hole};
ghost use Rattle.pc_types.specs.Rows.{seen};
ghost use Rattle.pc_types.specs.Shapes.{Owner, Typed};
ghost use Rattle.pc_types.specs.Table.{Table, shape_at, nobody};
ghost use Rattle.pc_names.specs.Standing.{meant};
ghost use Rattle.pc_rules.specs.NameClasses as classes;
ghost use Rattle.pc_rules.specs.Attributes.{Node, judged};
ghost use Rattle.pc_rules.specs.ForStatements.{control_entries, bound_entries, stands_among};
ghost use Rattle.pc_rules.specs.Variables.{variable_type, variable_entries};
ghost use Rattle.pc_facts.specs.Known.{Known};
ghost use Rattle.pc_facts.specs.Shows.{ShowsType, ShowsName, ShowsJudged};
ghost use Rattle.pc_statement_rules.specs.Controls.{is_local_at, variable_type_at, control_notes, is_bound_apart};

use pc_facts::{Judged, Named, Sighting, add_note, add_note_if, both};
use pc_judgements::{is_incompatible, is_no_ordinal};
use pc_names::NameClass;
use pc_report::ErrorEntry;
use pc_types::{Operand, OwnerId, Types};
use std::alloc::{AllocError, Global};

/// The control variable as it is judged, with rows 18 and 19 behind the entries of its name; `changed` says whether a routine in the
/// block or the body changes it. Only memory can fail.
pub(crate) fn control_judged(
    alloc: Global,
    types: &Types,
    word: &[u8],
    control: Named,
    named: Vec<ErrorEntry>,
    changed: bool,
    owner: OwnerId,
) -> Result<Judged, AllocError>
    ensures { IfOk result (λ j. (k : Known) (o : Owner) (c : Node) → k.table ≡ seen types.now → word.now ≡ c.at.word → ShowsName k control c.at → named.items ≡ variable_entries c → get_or k.table.owners owner.0 nobody ≡ o → ShowsJudged k.table j (judged (is_hole c.at.kind) (variable_entries c ++ control_entries o c changed) (variable_type c.at.found))) }
{
    let local = is_local(types, owner, control.sighting);
    let mut entries = named;
    add_control(alloc, &mut entries, control.hole, local, changed, word)?;
    Ok(Judged::of_parts(control.hole, entries, variable_type(control.sighting)))
}

/// Adds rows 18 and 19 of a control variable with this name.
fn add_control(
    alloc: Global,
    entries: &mut Vec<ErrorEntry>,
    hole: bool,
    local: bool,
    changed: bool,
    word: &[u8],
) -> Result<(), AllocError>
    ensures { OnOk result (entries.new.items ≡ entries.old.items ++ control_notes hole local changed word.now) }
{
    if hole {
        return Ok(());
    }
    if !local {
        add_note(alloc, entries, 18, b"control variable not local: ", word)?;
        return Ok(());
    }
    add_note_if(
        alloc,
        entries,
        changed,
        19,
        b"control variable is changed: ",
        word,
    )?;
    Ok(())
}

/// Whether a name means a variable of the variable declaration part of this block.
fn is_local(types: &Types, owner: OwnerId, sighting: Sighting) -> bool
    ensures { result ≡ is_local_at (seen types.now) owner sighting }
{
    match sighting {
        Sighting::Here(declared) => both(
            is_own_variable(declared.class),
            types.same_owners(owner, declared.owner),
        ),
        _ => false,
    }
}

/// The type of a variable's name, or of a field's.
fn variable_type(sighting: Sighting) -> Option<Operand>
    ensures { result ≡ variable_type_at sighting }
{
    match sighting {
        Sighting::Here(declared) => {
            if is_variable(declared.class) {
                declared.of
            } else {
                None
            }
        }
        Sighting::Component(of, _) => Some(of),
        _ => None,
    }
}

fn is_own_variable(class: NameClass) -> bool
    ensures { result ≡ classes.is_own_variable (meant class) }
{
    match class {
        NameClass::Variable => true,
        _ => false,
    }
}

fn is_variable(class: NameClass) -> bool
    ensures { result ≡ classes.is_variable_class (meant class) }
{
    match class {
        NameClass::Variable | NameClass::Value | NameClass::Reference => true,
        _ => false,
    }
}

/// Rows 8 and 11 of a bound, given the type of the control variable. Only memory can fail.
pub(crate) fn bound(
    alloc: Global,
    types: &Types,
    control: Option<Operand>,
    of: Option<Operand>,
) -> Result<Vec<ErrorEntry>, AllocError>
    ensures { IfOk result (λ es. (t : Table) (c b : Option Typed) → t ≡ seen types.now → ShowsType t control c → ShowsType t of b → es.items ≡ bound_entries c b) }
{
    let mut entries = Vec::new(alloc);
    add_note_if(
        alloc,
        &mut entries,
        is_no_ordinal(types, of),
        8,
        b"not an ordinal type",
        b"",
    )?;
    add_note_if(
        alloc,
        &mut entries,
        is_apart(types, control, of),
        11,
        b"types do not agree",
        b"",
    )?;
    Ok(entries)
}

/// Whether a bound is ordinal and the control variable has a type that is not compatible with it.
fn is_apart(types: &Types, control: Option<Operand>, of: Option<Operand>) -> bool
    ensures { result ≡ is_bound_apart (option_map (shape_at (seen types.now)) control) (option_map (shape_at (seen types.now)) of) }
{
    match of {
        Some(known) => both(
            types.is_ordinal(known),
            is_incompatible(types, control, known),
        ),
        None => false,
    }
}
