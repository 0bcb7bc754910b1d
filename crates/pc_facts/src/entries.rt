//! Entries of the error list in the making, seen from the node at hand.

ghost use Rattle.std.specs.Prelude.{◌≡◌, ◌++◌, IfOk, OnOk};
ghost use Rattle.pc_rules.specs.Attributes.{at_kid};
ghost use Rattle.pc_rules.specs.Entries.{note, note_if};

use pc_report::ErrorEntry;
use std::alloc::{AllocError, Global};

/// Adds the entries of kid `i`, from 1, to those of its node. Only memory can fail.
pub fn add_kid(
    entries: &mut Vec<ErrorEntry>,
    i: u32,
    kid: Vec<ErrorEntry>,
) -> Result<(), AllocError>
    ensures { OnOk result (entries.new.items ≡ entries.old.items ++ at_kid i kid.items) }
{
    for entry in kid {
        entries.push(entry.seen_from_above(i)?)?;
    }
    Ok(())
}

/// Adds an entry of this row at the node itself, with a text in two pieces. Only memory can fail.
pub fn add_note(
    alloc: Global,
    entries: &mut Vec<ErrorEntry>,
    row: u8,
    text: &[u8],
    word: &[u8],
) -> Result<(), AllocError>
    ensures { OnOk result (entries.new.items ≡ entries.old.items ++ note row (text.now ++ word.now)) }
{
    let mut whole = text.to_vec(alloc)?;
    whole.extend_from_slice(word)?;
    entries.push(ErrorEntry::new(Vec::new(alloc), row, whole))?;
    Ok(())
}

/// Adds that entry where the condition holds.
pub fn add_note_if(
    alloc: Global,
    entries: &mut Vec<ErrorEntry>,
    is_so: bool,
    row: u8,
    text: &[u8],
    word: &[u8],
) -> Result<(), AllocError>
    ensures { OnOk result (entries.new.items ≡ entries.old.items ++ note_if is_so row (text.now ++ word.now)) }
{
    if is_so {
        add_note(alloc, entries, row, text, word)?;
    }
    Ok(())
}
