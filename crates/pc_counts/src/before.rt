//! How often the name of a definition stood before (ISO 7185, 6.2.2).

ghost use Rattle.std.specs.Prelude.{◌≡◌, ℕ, List, IfOk, OnOk};
ghost use Rattle.pc_syntax.specs.Words.{lowered};
ghost use Rattle.pc_scope.specs.Headings.{first_name, names_of, names_of_first};
ghost use Rattle.pc_rules.specs.Places.{times_in, first_of_names};
ghost use Rattle.pc_places.specs.Places.{Keeps};
ghost use Rattle.pc_openings.specs.Declaring.{name_of};
ghost use Rattle.pc_definitions.specs.Numbered.{defined_name};
ghost use Rattle.pc_counts.specs.Counting.{AreCounted};

use crate::counts::Counts;
use pc_places::{Tables, number};
use pc_syntax::{Kind, Tree};
use std::alloc::AllocError;

/// How often the name of a definition, or the first name of a variable declaration, stood before. Only memory can fail.
pub(crate) fn times_before(
    counts: &Counts,
    tables: &mut Tables,
    node: &Tree,
) -> Result<u32, AllocError>
    ensures times { IfOk result (λ b. (passed : List (List ℕ)) → AreCounted counts.now tables.old.names.texts passed → times_in passed (defined_name node.now.kind node.now.kids) ≡ b) }
    ensures keeps { OnOk result (Keeps tables.old tables.new) }
{
    let times = times_of_word(counts, tables, defined_word(node))?;
    Ok(times)
}

/// How often a name in any case stood before.
fn times_of_word(counts: &Counts, tables: &mut Tables, word: &[u8]) -> Result<u32, AllocError>
    ensures times { IfOk result (λ b. (passed : List (List ℕ)) → AreCounted counts.now tables.old.names.texts passed → times_in passed (lowered word.now) ≡ b) }
    ensures keeps { OnOk result (Keeps tables.old tables.new) }
{
    let name = number(tables, word)?;
    Ok(counts.count(name))
}

/// The name of a definition, or the first name of a variable declaration, in any case; that of a hole is empty.
fn defined_word(node: &Tree) -> &[u8]
    ensures { lowered result.now ≡ defined_name node.now.kind node.now.kids }
{
    match node.kind() {
        Kind::Vardef => first_listed_below(node),
        _ => first_word(node),
    }
}

/// The name that a node has as its first kid.
fn first_word(node: &Tree) -> &[u8]
    ensures { lowered result.now ≡ first_name node.now.kids }
{
    match node.kid(1) {
        Some(name) => word_of(name),
        None => b"",
    }
}

/// The first name of the list that a node has as its first kid.
fn first_listed_below(node: &Tree) -> &[u8]
    ensures { lowered result.now ≡ first_of_names (names_of_first node.now.kids) }
{
    match node.kid(1) {
        Some(list) => first_listed(list),
        None => b"",
    }
}

/// The first name of a list; a hole is none.
fn first_listed(list: &Tree) -> &[u8]
    ensures { lowered result.now ≡ first_of_names (names_of list.now.kids) }
{
    for name in list.kid_slice() {
        if !name.kind().is_hole() {
            return name.word();
        }
    }
    b""
}

/// The name that a node is, and nothing where it is a hole.
fn word_of(name: &Tree) -> &[u8]
    ensures { lowered result.now ≡ name_of name.now }
{
    if name.kind().is_hole() {
        return b"";
    }
    name.word()
}
