//! The headings of the routines of a block (ISO 7185, 6.6.1, 6.6.2).

ghost use Rattle.std.specs.Prelude.{◌≡◌, ◌∷◌, ℕ, List, IfOk, OnOk};
ghost use Rattle.std.specs.Option.{is_some};
ghost use Rattle.pc_scope.specs.Headings.{Heading, first_name, heading_of, headings_in};
ghost use Rattle.pc_places.specs.Places.{Keeps};
ghost use Rattle.pc_routines.specs.Heads.{ShowsHead, ShowsHeadName, ShowsHeads, found_at};
ghost use Rattle.pc_routines.specs.Later.{later_at, HasLater};

use crate::head::RoutineHead;
use crate::kinds::{ends_forward, is_function_kind, is_routine_kind, spelled_name};
use crate::later::Later;
use pc_facts::both;
use pc_names::NameId;
use pc_places::{Tables, number};
use pc_syntax::Tree;
use std::alloc::{AllocError, Global};

/// The headings of the routines below a node, in order. Only memory can fail. Work: a visit of each routine and its kids, and a few
/// look-ups in hash tables.
pub fn heads(
    alloc: Global,
    tables: &mut Tables,
    routines: &Tree,
) -> Result<Vec<RoutineHead>, AllocError>
    ensures shows { IfOk result (λ xs. ShowsHeads tables.new.names.texts xs.items (headings_in routines.now.kids)) }
    ensures keeps { OnOk result (Keeps tables.old tables.new) }
{
    let kids = routines.kid_slice();
    let mut later = Later::new(alloc);
    let mut heads = Vec::new(alloc);
    let mut i = kids.len();
    while i > 0 {
        i -= 1;
        let head = head_of(tables, &later, &kids[i])?;
        pass(&mut later, &head)?;
        heads.push(head)?;
    }
    heads.reverse();
    Ok(heads)
}

/// The heading of a routine, given those behind it that are no forward ones.
fn head_of(tables: &mut Tables, later: &Later, routine: &Tree) -> Result<RoutineHead, AllocError>
    ensures head { IfOk result (λ x. ShowsHead tables.new.names.texts x (heading_of routine.now.kind routine.now.kids)) }
    ensures later { IfOk result (λ x. x.has_later ≡ is_some (found_at (later_at later.now) x.name x.is_function)) }
    ensures keeps { OnOk result (Keeps tables.old tables.new) }
{
    let name = name_of(tables, routine)?;
    let is_function = is_function_kind(routine.kind());
    let is_forward = both(is_routine_kind(routine.kind()), ends_forward(routine));
    let has_later = later.has(name, is_function);
    Ok(RoutineHead {
        name,
        is_function,
        is_forward,
        has_later,
    })
}

/// The number of the name of a routine, if it is no hole.
fn name_of(tables: &mut Tables, routine: &Tree) -> Result<Option<NameId>, AllocError>
    ensures name { IfOk result (λ n. ShowsHeadName tables.new.names.texts n (first_name routine.now.kids)) }
    ensures keeps { OnOk result (Keeps tables.old tables.new) }
{
    let word = spelled_name(routine);
    if word.is_empty() {
        return Ok(None);
    }
    let id = number(tables, word)?;
    Ok(Some(id))
}

/// The routine is behind the next one to the front.
fn pass(later: &mut Later, head: &RoutineHead) -> Result<(), AllocError>
    ensures { OnOk result ((names : List (List ℕ)) (h : Heading) (hs : List Heading) → ShowsHead names head.now h → HasLater names later.old hs → HasLater names later.new (h ∷ hs)) }
{
    if head.is_forward {
        return Ok(());
    }
    let Some(name) = head.name else {
        return Ok(());
    };
    later.add(name, head.is_function)?;
    Ok(())
}
