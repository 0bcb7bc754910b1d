//! Rows 8, 9 and 10 of the table of errors: types that are out of place, or too large.

ghost use Rattle.std.specs.Prelude.{◌≡◌, ◌++◌, Option, OnOk, option_map};
ghost use Rattle.pc_types.specs.Shapes.{Typed};
ghost use Rattle.pc_types.specs.Rows.{seen};
ghost use Rattle.pc_types.specs.Table.{shape_at};
ghost use Rattle.pc_rules.specs.Entries.{no_ordinal};
ghost use Rattle.pc_rules.specs.StructuredTypes.{base_too_large, too_large};
ghost use Rattle.pc_facts.specs.Shows.{ShowsType};
ghost use Rattle.pc_type_rules.specs.Judged as judged;

use pc_facts::add_note_if;
use pc_judgements::{is_base_too_large, is_no_ordinal};
use pc_report::ErrorEntry;
use pc_types::{Operand, Types};
use std::alloc::{AllocError, Global};

/// Row 8, where the type is known and not ordinal. Only memory can fail.
pub fn add_no_ordinal(
    alloc: Global,
    types: &Types,
    entries: &mut Vec<ErrorEntry>,
    of: Option<Operand>,
) -> Result<(), AllocError>
    ensures { OnOk result ((ty : Option Typed) → ShowsType (seen types.now) of ty → entries.new.items ≡ entries.old.items ++ no_ordinal ty) }
{
    let unfit = is_no_ordinal(types, of);
    add_note_if(alloc, entries, unfit, 8, b"not an ordinal type", b"")?;
    Ok(())
}

/// Row 9, where the type is known, ordinal, and has a value below 0 or above 255. Only memory can fail.
pub fn add_base_too_large(
    alloc: Global,
    types: &Types,
    entries: &mut Vec<ErrorEntry>,
    of: Option<Operand>,
) -> Result<(), AllocError>
    ensures { OnOk result ((ty : Option Typed) → ShowsType (seen types.now) of ty → entries.new.items ≡ entries.old.items ++ base_too_large ty) }
{
    let large = is_large_base(types, of);
    add_note_if(alloc, entries, large, 9, b"set base too large", b"")?;
    Ok(())
}

/// Row 10, where the type is known and too large. Only memory can fail.
pub fn add_too_large(
    alloc: Global,
    types: &Types,
    entries: &mut Vec<ErrorEntry>,
    of: Option<Operand>,
) -> Result<(), AllocError>
    ensures { OnOk result ((ty : Option Typed) → ShowsType (seen types.now) of ty → entries.new.items ≡ entries.old.items ++ too_large ty) }
{
    let large = is_large(types, of);
    add_note_if(alloc, entries, large, 10, b"type too large", b"")?;
    Ok(())
}

fn is_large_base(types: &Types, of: Option<Operand>) -> bool
    ensures { result ≡ judged.is_large_base (option_map (shape_at (seen types.now)) of) }
{
    match of {
        Some(base) => is_base_too_large(types, base),
        None => false,
    }
}

fn is_large(types: &Types, of: Option<Operand>) -> bool
    ensures { result ≡ judged.is_large (option_map (shape_at (seen types.now)) of) }
{
    match of {
        Some(whole) => types.is_too_large(whole),
        None => false,
    }
}
