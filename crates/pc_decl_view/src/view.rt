//! The view `decls`.

ghost use Rattle.std.specs.Prelude.{◌≡◌, ◌++◌, ℕ, None, get_or, slice_get, IfOk};
ghost use Rattle.std.specs.Option.{option_and_then};
ghost use Rattle.std.specs.List.{find};
ghost use Rattle.pc_syntax.specs.Plain.{Plain};
ghost use Rattle.pc_syntax.specs.WellFormed.{IsProper};
ghost use Rattle.pc_types.specs.Rows.{seen};
ghost use Rattle.pc_facts.specs.Known.{Known};
ghost use Rattle.pc_sightings.specs.TouchedLog.{AreApart};
ghost use Rattle.pc_views.specs.Limit.{limited, Agrees};
ghost use Rattle.pc_decl.specs.Annotated.{annotated};
ghost use Rattle.pc_decl.specs.DeclsText.{decls_text};
ghost use Rattle.pc_own_names.specs.ShowsNames.{AllShowRoutines};
ghost use Rattle.pc_decl_view.specs.KeptLines.{is_later_of, kept_decls};

use crate::laters::{find_laters, later_of};
use crate::routine::push_routine;
use pc_decl_laws::{decls_come_routine_by_routine, kinds_come_with_declared_names};
use pc_facts::Signature;
use pc_own_names::RoutineNames;
use pc_types::Types;
use pc_views::{limited, text_limit};
use std::alloc::{AllocError, Global};

/// The text of the view `decls` of a program from what was kept of its routines: for each routine with a key, but a later
/// declaration, a line with its key, a line for each name that it declares, and then the lines of the names of its later
/// declaration, if it has one. A text of more than 10,000,000 bytes is the one line `view too large` instead. Fails for want of
/// memory only. Work: in proportion to the number of routines, to the largest number of an owner, and to the text up to that limit.
pub fn decls_view(
    alloc: Global,
    types: &Types,
    signatures: &[Signature],
    routines: &[RoutineNames],
) -> Result<Vec<u8>, AllocError>
    ensures { IfOk result (λ text. (t : Plain) (k : Known) → IsProper t → k.table ≡ seen types.now → k.signatures ≡ signatures.now → AreApart (seen types.now).owners → AllShowRoutines t k routines.now (annotated t).routines → text.items ≡ limited (decls_text t)) }
{
    decls_come_routine_by_routine();
    kinds_come_with_declared_names();
    let text = decls_of(alloc, types, signatures, routines)?;
    limited(alloc, text)
}

/// The lines of all routines, up to the limit.
fn decls_of(
    alloc: Global,
    types: &Types,
    signatures: &[Signature],
    routines: &[RoutineNames],
) -> Result<Vec<u8>, AllocError>
    ensures { IfOk result (λ text. Agrees text.items (kept_decls (seen types.now) signatures.now routines.now)) }
{
    let mut text = Vec::new(alloc);
    let laters = find_laters(alloc, routines)?;
    push_routines(alloc, &mut text, types, signatures, routines, &laters)?;
    Ok(text)
}

/// Adds the lines of each routine, and stops where the text is over the limit.
fn push_routines(
    alloc: Global,
    text: &mut Vec<u8>,
    types: &Types,
    signatures: &[Signature],
    routines: &[RoutineNames],
    laters: &[Option<usize>],
) -> Result<(), AllocError>
    ensures { IfOk result (λ _. ((n : ℕ) → option_and_then (slice_get routines.now) (get_or laters.now n None) ≡ find (is_later_of n) routines.now) → Agrees text.new.items (text.old.items ++ kept_decls (seen types.now) signatures.now routines.now)) }
{
    for routine in routines {
        if text.len() > text_limit() {
            return Ok(());
        }
        let later = later_of(laters, routines, routine.owner);
        push_routine(alloc, text, types, signatures, routine, later)?;
    }
    Ok(())
}
