//! Entries of statements about the types of their parts.

ghost use Rattle.std.specs.Prelude.{◌≡◌, ◌++◌, Option, option_map, IfOk, OnOk};
ghost use Rattle.pc_types.specs.Rows.{seen};
ghost use Rattle.pc_types.specs.Shapes.{Typed};
ghost use Rattle.pc_types.specs.Table.{Table, shape_at};
ghost use Rattle.pc_types.specs.TypeClasses.{is_boolean};
ghost use Rattle.pc_judgements.specs.Judged.{is_unfit};
ghost use Rattle.pc_rules.specs.Components.{is_record, no_record};
ghost use Rattle.pc_rules.specs.Entries.{disagree, no_ordinal};
ghost use Rattle.pc_rules.specs.Statements.{no_condition};
ghost use Rattle.pc_facts.specs.Shows.{ShowsType};

use pc_facts::{add_note, add_note_if};
use pc_judgements::is_no_ordinal;
use pc_report::ErrorEntry;
use pc_types::{Operand, Types};
use std::alloc::{AllocError, Global};

/// Row 17 of a condition, where its type is known and not Boolean. Only memory can fail.
pub(crate) fn no_condition(
    alloc: Global,
    types: &Types,
    of: Option<Operand>,
) -> Result<Vec<ErrorEntry>, AllocError>
    ensures { IfOk result (λ es. (t : Table) (ty : Option Typed) → t ≡ seen types.now → ShowsType t of ty → es.items ≡ no_condition ty) }
{
    let mut entries = Vec::new(alloc);
    add_note_if(
        alloc,
        &mut entries,
        is_no_condition(types, of),
        17,
        b"condition is not Boolean",
        b"",
    )?;
    Ok(entries)
}

fn is_no_condition(types: &Types, of: Option<Operand>) -> bool
    ensures { result ≡ is_unfit is_boolean (option_map (shape_at (seen types.now)) of) }
{
    match of {
        Some(known) => !types.is_boolean(known),
        None => false,
    }
}

/// Row 15 of an access that a with names, where its type is known and no record. Only memory can fail.
pub(crate) fn add_no_record(
    alloc: Global,
    types: &Types,
    entries: &mut Vec<ErrorEntry>,
    of: Option<Operand>,
) -> Result<(), AllocError>
    ensures { OnOk result ((t : Table) (ty : Option Typed) → t ≡ seen types.now → ShowsType t of ty → entries.new.items ≡ entries.old.items ++ no_record ty) }
{
    add_note_if(
        alloc,
        entries,
        is_no_record(types, of),
        15,
        b"not a record",
        b"",
    )?;
    Ok(())
}

#[tactic(auto, using(crate::proofs::RecordLaws::records))]
fn is_no_record(types: &Types, of: Option<Operand>) -> bool
    ensures { result ≡ is_unfit is_record (option_map (shape_at (seen types.now)) of) }
{
    match of {
        Some(known) => !types.is_record(known),
        None => false,
    }
}

/// Row 8 of an expression, where its type is known and not ordinal. Only memory can fail.
pub(crate) fn no_ordinal(
    alloc: Global,
    types: &Types,
    of: Option<Operand>,
) -> Result<Vec<ErrorEntry>, AllocError>
    ensures { IfOk result (λ es. (t : Table) (ty : Option Typed) → t ≡ seen types.now → ShowsType t of ty → es.items ≡ no_ordinal ty) }
{
    let mut entries = Vec::new(alloc);
    add_note_if(
        alloc,
        &mut entries,
        is_no_ordinal(types, of),
        8,
        b"not an ordinal type",
        b"",
    )?;
    Ok(entries)
}

/// Row 11. Only memory can fail.
pub(crate) fn disagree(alloc: Global) -> Result<Vec<ErrorEntry>, AllocError>
    ensures { IfOk result (λ es. es.items ≡ disagree) }
{
    let mut entries = Vec::new(alloc);
    add_note(alloc, &mut entries, 11, b"types do not agree", b"")?;
    Ok(entries)
}
