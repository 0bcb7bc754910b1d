//! The records that the `with` statements around have opened (ISO 7185, 6.8.3.10).

ghost use Rattle.std.specs.Prelude.{◌≡◌, ◌++◌, ℕ, Bool, List, Option, Some, OnOk, OnErr};
ghost use Rattle.pc_syntax.specs.Words.{lowered};
ghost use Rattle.pc_types.specs.Rows.{seen};
ghost use Rattle.pc_types.specs.Shapes.{Typed};
ghost use Rattle.pc_types.specs.Table.{Table};
ghost use Rattle.pc_rules.specs.Meanings.{entry_of};
ghost use Rattle.pc_rules.specs.Variables.{opened_by};
ghost use Rattle.pc_facts.specs.Shows.{ShowsType};
ghost use Rattle.pc_sightings.specs.Opened.{ShowsOpened, ShowsField, pushed};

use pc_types::{Operand, Types};
use std::alloc::AllocError;

/// Opens the record of an access for what stands to the right: its type, where it is known, is the innermost from now on. An access
/// whose type is not known opens nothing. Only memory can fail.
pub fn open(opened: &mut Vec<Operand>, of: Option<Operand>) -> Result<(), AllocError>
    ensures types { OnOk result (opened.new.items ≡ opened.old.items ++ pushed of) }
    ensures fields { OnOk result ((t : Table) (ty : Option Typed) (fields : List (List ℕ × (Typed × Bool))) → ShowsType t of ty → ShowsOpened t opened.old.items fields → ShowsOpened t opened.new.items (opened_by ty ++ fields)) }
    ensures failure { OnErr result (opened.new.items ≡ opened.old.items) }
{
    if let Some(known) = of {
        opened.push(known)?;
    }
    Ok(())
}

/// The type of the field with this name, in any case, of the innermost record that has it, and whether that record is packed. Types
/// that are no records have no fields. Work: the number of fields of the records that are looked at.
pub fn field_at(types: &Types, opened: &[Operand], word: &[u8]) -> Option<(Operand, bool)>
    ensures { (t : Table) (fields : List (List ℕ × (Typed × Bool))) → t ≡ seen types.now → ShowsOpened t opened.now fields → ShowsField t result (entry_of fields (lowered word.now)) }
{
    let mut rest = opened;
    while let Some((innermost, outer)) = rest.split_last() {
        if let Some(field) = field_in(types, *innermost, word) {
            return Some(field);
        }
        rest = outer;
    }
    None
}

/// The same of one record.
fn field_in(types: &Types, whole: Operand, word: &[u8]) -> Option<(Operand, bool)>
    ensures { (ty : Typed) → ShowsType (seen types.now) (Some whole) (Some ty) → ShowsField (seen types.now) result (entry_of (opened_by (Some ty)) (lowered word.now)) }
{
    match types.field(whole, word) {
        Some(id) => Some((Operand::Id(id), types.is_packed(whole))),
        None => None,
    }
}
