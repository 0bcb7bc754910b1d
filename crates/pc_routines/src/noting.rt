//! Rows 3, 20, 21 and 22 of the error list at a routine.

ghost use Rattle.std.specs.Prelude.{◌≡◌, ◌++◌, codes, IfOk};
ghost use Rattle.pc_rules.specs.Attributes.{at_kid};
ghost use Rattle.pc_rules.specs.Entries.{note_if, quoted};
ghost use Rattle.pc_routines.specs.Bare.{routine_notes};

use pc_facts::{add_kid, add_note_if};
use pc_report::ErrorEntry;
use std::alloc::{AllocError, Global};

/// Rows 3, 20, 21 and 22 of a routine, by whether each is met.
pub(crate) fn notes(
    alloc: Global,
    later: bool,
    given: bool,
    second: bool,
    untyped: bool,
    unfinished: bool,
    word: &[u8],
) -> Result<Vec<ErrorEntry>, AllocError>
    ensures { IfOk result (λ es. es.items ≡ routine_notes later given second untyped unfinished word.now) }
{
    if later {
        again(alloc, given, word)
    } else {
        once(alloc, second, untyped, unfinished, word)
    }
}

/// The entries of a later declaration.
fn again(alloc: Global, given: bool, word: &[u8]) -> Result<Vec<ErrorEntry>, AllocError>
    ensures { IfOk result (λ es. es.items ≡ note_if given 21 (quoted (codes "heading given again") word.now)) }
{
    let mut entries = Vec::new(alloc);
    add_note_if(
        alloc,
        &mut entries,
        given,
        21,
        b"heading given again: ",
        word,
    )?;
    Ok(entries)
}

/// The entries of any other routine.
fn once(
    alloc: Global,
    second: bool,
    untyped: bool,
    unfinished: bool,
    word: &[u8],
) -> Result<Vec<ErrorEntry>, AllocError>
    ensures { IfOk result (λ es. es.items ≡ at_kid 1 (note_if second 3 (quoted (codes "declared twice") word.now) ++ note_if untyped 22 (quoted (codes "result type not simple") word.now)) ++ note_if unfinished 20 (quoted (codes "forward has no block") word.now)) }
{
    let mut below = Vec::new(alloc);
    add_note_if(alloc, &mut below, second, 3, b"declared twice: ", word)?;
    add_note_if(
        alloc,
        &mut below,
        untyped,
        22,
        b"result type not simple: ",
        word,
    )?;
    let mut entries = Vec::new(alloc);
    add_kid(&mut entries, 1, below)?;
    add_note_if(
        alloc,
        &mut entries,
        unfinished,
        20,
        b"forward has no block: ",
        word,
    )?;
    Ok(entries)
}
