//! The names that nodes declare in their block are counted (ISO 7185, 6.2.2).

ghost use Rattle.std.specs.Prelude.{◌≡◌, [], ◌∷◌, OnOk};
ghost use Rattle.pc_syntax.specs.WellFormed.{IsProper};
ghost use Rattle.pc_syntax.specs.Words.{lowered};
ghost use Rattle.pc_scope.specs.Headings.{first_name, is_routine_kind, names_of, names_of_first};
ghost use Rattle.pc_rules.specs.OwnBlock.{declared_by};
ghost use Rattle.pc_openings.specs.Declaring.{name_of, declared_below};
ghost use Rattle.pc_counts.specs.Counting.{all_names, if_named, if_listed};
ghost use Rattle.pc_counts.specs.Counted.{Counted};

use crate::counts::Counts;
use pc_places::{Tables, number};
use pc_syntax::{Kind, Tree};
use std::alloc::AllocError;

/// What the nodes below a node declare in its block is counted, in text order. Only memory and numbers can fail.
pub(crate) fn count_below(
    counts: &mut Counts,
    tables: &mut Tables,
    node: &Tree,
) -> Result<(), AllocError>
    ensures counted { OnOk result (Counted (all_names (declared_below node.now)) counts.old counts.new tables.old tables.new) }
    ensures proper { OnOk result (IsProper node.now) }
{
    if is_routine(node.kind()) {
        return Ok(());
    }
    for kid in node.kid_slice() {
        count_own(counts, tables, kid)?;
        count_below(counts, tables, kid)?;
    }
    Ok(())
}

/// Whether a node of this kind is a routine, which has a block of its own.
fn is_routine(kind: Kind) -> bool
    ensures { result ≡ is_routine_kind kind }
{
    matches!(kind, Kind::Procedure | Kind::Function | Kind::Funbody)
}

/// What a node itself declares is counted.
pub(crate) fn count_own(
    counts: &mut Counts,
    tables: &mut Tables,
    node: &Tree,
) -> Result<(), AllocError>
    ensures { OnOk result (Counted (all_names (declared_by node.now.kind node.now.kids)) counts.old counts.new tables.old tables.new) }
{
    match node.kind() {
        Kind::Constdef | Kind::Typedef => {
            count_first(counts, tables, node)?;
            Ok(())
        }
        Kind::Vardef | Kind::Enum => {
            count_list(counts, tables, node)?;
            Ok(())
        }
        Kind::Procedure | Kind::Function | Kind::Funbody => {
            count_first(counts, tables, node)?;
            Ok(())
        }
        _ => Ok(()),
    }
}

/// The name that a node has as its first kid is counted.
fn count_first(counts: &mut Counts, tables: &mut Tables, node: &Tree) -> Result<(), AllocError>
    ensures { OnOk result (Counted (if_named (first_name node.now.kids)) counts.old counts.new tables.old tables.new) }
{
    let Some(name) = node.kid(1) else {
        return Ok(());
    };
    count_name(counts, tables, name)?;
    Ok(())
}

/// The names of the list that a node has as its first kid are counted.
fn count_list(counts: &mut Counts, tables: &mut Tables, node: &Tree) -> Result<(), AllocError>
    ensures { OnOk result (Counted (names_of_first node.now.kids) counts.old counts.new tables.old tables.new) }
{
    let Some(list) = node.kid(1) else {
        return Ok(());
    };
    count_names(counts, tables, list)?;
    Ok(())
}

/// A name is counted; a hole is none.
fn count_name(counts: &mut Counts, tables: &mut Tables, name: &Tree) -> Result<(), AllocError>
    ensures { OnOk result (Counted (if_named (name_of name.now)) counts.old counts.new tables.old tables.new) }
{
    if name.kind().is_hole() {
        return Ok(());
    }
    let word = name.word();
    if word.is_empty() {
        return Ok(());
    }
    count_word(counts, tables, word)?;
    Ok(())
}

/// The names of a list are counted.
fn count_names(counts: &mut Counts, tables: &mut Tables, list: &Tree) -> Result<(), AllocError>
    ensures { OnOk result (Counted (names_of list.now.kids) counts.old counts.new tables.old tables.new) }
{
    for name in list.kid_slice() {
        count_listed(counts, tables, name)?;
    }
    Ok(())
}

/// A name of a list is counted; a hole is none.
fn count_listed(counts: &mut Counts, tables: &mut Tables, name: &Tree) -> Result<(), AllocError>
    ensures { OnOk result (Counted (if_listed name.now) counts.old counts.new tables.old tables.new) }
{
    if name.kind().is_hole() {
        return Ok(());
    }
    count_word(counts, tables, name.word())?;
    Ok(())
}

/// A name in any case is counted.
fn count_word(counts: &mut Counts, tables: &mut Tables, word: &[u8]) -> Result<(), AllocError>
    ensures { OnOk result (Counted (lowered word.now ∷ []) counts.old counts.new tables.old tables.new) }
{
    let name = number(tables, word)?;
    counts.add(name)?;
    Ok(())
}
