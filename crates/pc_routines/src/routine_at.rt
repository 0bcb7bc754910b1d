//! A routine as its block sees it (ISO 7185, 6.6.1, 6.6.2).

ghost use Rattle.std.specs.Prelude.{◌≡◌, not, ◌&&◌, ◌==◌, ℕ, List, length, true, IfOk};
ghost use Rattle.pc_syntax.specs.Words.{is_among};
ghost use Rattle.pc_scope.specs.Headings as headings;
ghost use Rattle.pc_scope.specs.Headings.{heading_of, has_later};
ghost use Rattle.pc_rules.specs.Declarations.{heading_here, rest_of};
ghost use Rattle.pc_rules.specs.Meanings.{Local, Outside};
ghost use Rattle.pc_rules.specs.RoutineList.{Forwarded};
ghost use Rattle.pc_places.specs.Places.{IsPlace};
ghost use Rattle.pc_routines.specs.Bare as bare;
ghost use Rattle.pc_routines.specs.Bare.{IsRoutine};
ghost use Rattle.pc_routines.specs.Heads.{ShowsHead, ShowsHeadName};
ghost use Rattle.pc_routines.specs.Waits.{Waits};

use crate::facts::RoutineFacts;
use crate::head::RoutineHead;
use crate::noting::notes;
use crate::waiting::Waiting;
use pc_facts::both;
use pc_names::{BlockId, NameId};
use pc_places::{Tables, is_passed};
use pc_syntax::{Kind, Tree};
use std::alloc::{AllocError, Global};

/// What is found at a routine in the block around it, given its heading and the forward routines that wait there. Only memory can fail.
pub fn routine(
    alloc: Global,
    tables: &Tables,
    block: BlockId,
    head: &RoutineHead,
    waiting: &Waiting,
    node: &Tree,
) -> Result<RoutineFacts, AllocError>
    requires { headings.is_routine_kind node.now.kind ≡ true }
    ensures { IfOk result (λ f. (owner : ℕ) (out : Outside) (l : Local) (fs : List Forwarded) → IsPlace tables.now block.0 owner out l → heading_here l ≡ heading_of node.now.kind node.now.kids → ShowsHead tables.now.names.texts head.now (heading_here l) → head.now.has_later ≡ has_later (heading_here l) (rest_of l.ahead) → Waits tables.now waiting.now l.waiting fs → IsRoutine out l node.now f) }
{
    let kind = node.kind();
    let named = head.name.is_some();
    let passed = stands_before(tables, block, head.name);
    let waits = waiting.find(head).is_some();
    let later = both(!head.is_forward, waits);
    let first = both(both(!later, named), !passed);
    let untyped = both(!is_typed(kind), named);
    let unfinished = both(both(head.is_forward, named), !head.has_later);
    let entries = notes(
        alloc,
        later,
        is_given(node),
        passed,
        untyped,
        unfinished,
        first_word(node),
    )?;
    Ok(RoutineFacts {
        entries,
        later,
        first,
    })
}

/// Whether the name of a routine, if it has one, stands before.
fn stands_before(tables: &Tables, block: BlockId, name: Option<NameId>) -> bool
    ensures { (owner : ℕ) (out : Outside) (l : Local) (n : List ℕ) → ShowsHeadName tables.now.names.texts name n → IsPlace tables.now block.0 owner out l → result ≡ (not (length n == 0) && is_among l.passed n) }
{
    match name {
        Some(id) => is_passed(tables, block, id),
        None => false,
    }
}

/// Whether the heading of a routine has parameters or a result type.
fn is_given(node: &Tree) -> bool
    ensures { result ≡ bare.is_given node.now.kind node.now.kids }
{
    match node.kind() {
        Kind::Procedure => second_has_kids(node),
        Kind::Function => true,
        _ => false,
    }
}

/// Whether the second kid of a node has kids.
fn second_has_kids(node: &Tree) -> bool
    ensures { result ≡ bare.second_has_kids node.now.kids }
{
    match node.kid(2) {
        Some(second) => second.kids() != 0,
        None => false,
    }
}

/// Whether a heading of this kind has the result type that it needs.
fn is_typed(kind: Kind) -> bool
    ensures { result ≡ bare.is_typed kind }
{
    match kind {
        Kind::Funbody => false,
        _ => true,
    }
}

/// The word of the first kid of a node.
fn first_word(node: &Tree) -> &[u8]
    ensures { result.now ≡ bare.first_word node.now.kids }
{
    match node.kid(1) {
        Some(first) => first.word(),
        None => &[],
    }
}
