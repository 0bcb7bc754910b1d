//! Arguments beside the formal parameters of a declared routine.

ghost use Rattle.std.specs.Prelude.{◌≡◌, ◌++◌, List, ℕ, Option, if◌then◌else◌, codes, option_map, slice_get, ◌+◌, IfOk};
ghost use Rattle.pc_types.specs.Shapes.{Shape};
ghost use Rattle.pc_types.specs.Rows.{seen};
ghost use Rattle.pc_types.specs.Table.{shape_at};
ghost use Rattle.pc_rules.specs.Attributes.{Node};
ghost use Rattle.pc_rules.specs.Meanings as rules;
ghost use Rattle.pc_rules.specs.Arguments as rule;
ghost use Rattle.pc_rules.specs.Entries.{note, unassignable};
ghost use Rattle.pc_facts.specs.Known.{Known};
ghost use Rattle.pc_facts.specs.Shows.{ShowsNode, ShowsFormals, ShowsArgument, AllShow};
ghost use Rattle.pc_call_rules.specs.Parameters.{ShowsFormal, is_by_place, type_in};

use crate::notes::{is_width, misplaced_width, not_a_variable};
use pc_facts::{Argument, Facts, Formal, add_kid, add_note_if, both};
use pc_judgements::{differs, is_unassignable};
use pc_report::ErrorEntry;
use pc_syntax::Class;
use pc_types::{Operand, Types};
use std::alloc::{AllocError, Global};

/// The entries of arguments, seen from their list, each beside the formal parameter with its number, where there is one. Only memory
/// can fail; there is none for more arguments than 32 bits can number.
pub fn arguments(
    alloc: Global,
    types: &Types,
    formals: &[Formal],
    args: Vec<Argument>,
) -> Result<Vec<ErrorEntry>, AllocError>
    ensures { IfOk result (λ es. (k : Known) (fs : List rules.Formal) (ns : List Node) → k.table ≡ seen types.now → ShowsFormals k formals.now fs → AllShow (ShowsArgument k) args.items ns → es.items ≡ rule.arguments_entries fs 1 ns) }
{
    let mut entries = Vec::new(alloc);
    let mut number = 0;
    for passed in args {
        let of_one = argument(alloc, types, formal_at(formals, number), passed.at)?;
        number = next(number)?;
        add_kid(&mut entries, number, of_one)?;
    }
    Ok(entries)
}

/// The entries of an argument beside its formal parameter, if there is one: rows 11, 13 and 14, and row 24 of a width. Only memory
/// can fail.
pub fn argument(
    alloc: Global,
    types: &Types,
    formal: Option<Formal>,
    at: Facts,
) -> Result<Vec<ErrorEntry>, AllocError>
    ensures { IfOk result (λ es. (k : Known) (f : Option rules.Formal) (n : Node) → k.table ≡ seen types.now → ShowsFormal k formal f → ShowsNode k at n.at → es.items ≡ rule.argument_entries f n) }
{
    if is_width(at.kind) {
        misplaced_width(alloc, is_by_place(formal), at)
    } else if is_by_place(formal) {
        place_argument(alloc, types, formal_type(formal), at)
    } else {
        value_argument(alloc, types, formal_type(formal), at)
    }
}

/// The number of the next kid; no memory where 32 bits have none.
pub(crate) fn next(number: u32) -> Result<u32, AllocError>
    ensures { IfOk result (λ n. n ≡ number + 1) }
{
    number.checked_add(1).ok_or(AllocError)
}

/// The formal parameter with this number, from 0, if there is one.
pub(crate) fn formal_at(formals: &[Formal], i: u32) -> Option<Formal>
    ensures { result ≡ slice_get formals.now i }
{
    formals.get(i as usize).copied()
}

/// Whether a parameter is a variable parameter.
pub(crate) fn is_by_place(formal: Option<Formal>) -> bool
    ensures { result ≡ is_by_place formal }
{
    match formal {
        Some(parameter) => parameter.by_place,
        None => false,
    }
}

/// The type of a parameter.
pub(crate) fn formal_type(formal: Option<Formal>) -> Option<Operand>
    ensures { result ≡ type_in formal }
{
    match formal {
        Some(parameter) => Some(Operand::Id(parameter.of)),
        None => None,
    }
}

/// The entries of an argument of a variable parameter.
fn place_argument(
    alloc: Global,
    types: &Types,
    formal: Option<Operand>,
    at: Facts,
) -> Result<Vec<ErrorEntry>, AllocError>
    ensures { IfOk result (λ es. (k : Known) (t : Option Shape) (n : Node) → k.table ≡ seen types.now → option_map (shape_at (seen types.now)) formal ≡ t → ShowsNode k at n.at → es.items ≡ rule.place_entries t n) }
{
    if Class::Access.has(at.kind) {
        variable_argument(alloc, types, formal, at)
    } else {
        not_a_variable(alloc, at)
    }
}

/// The entries of a variable as the argument of a variable parameter: rows 14 and 11.
fn variable_argument(
    alloc: Global,
    types: &Types,
    formal: Option<Operand>,
    at: Facts,
) -> Result<Vec<ErrorEntry>, AllocError>
    ensures { IfOk result (λ es. (k : Known) (t : Option Shape) (n : Node) → k.table ≡ seen types.now → option_map (shape_at (seen types.now)) formal ≡ t → ShowsNode k at n.at → es.items ≡ n.as_place.entries ++ (if n.packed_part then note 14 (codes "component of a packed variable") else rule.differs t n.as_place.type)) }
{
    let packed = at.packed_part;
    let differing = both(!packed, differs(types, formal, at.place_type()));
    let mut entries = at.judgement.into_place().entries;
    add_note_if(
        alloc,
        &mut entries,
        packed,
        14,
        b"component of a packed variable",
        b"",
    )?;
    add_note_if(
        alloc,
        &mut entries,
        differing,
        11,
        b"types do not agree",
        b"",
    )?;
    Ok(entries)
}

/// The entries of an argument of a value parameter, or of one without a parameter: row 11.
fn value_argument(
    alloc: Global,
    types: &Types,
    formal: Option<Operand>,
    at: Facts,
) -> Result<Vec<ErrorEntry>, AllocError>
    ensures { IfOk result (λ es. (k : Known) (t : Option Shape) (n : Node) → k.table ≡ seen types.now → option_map (shape_at (seen types.now)) formal ≡ t → ShowsNode k at n.at → es.items ≡ n.as_value.entries ++ unassignable t n.as_value.type) }
{
    let disagreeing = is_unassignable(types, formal, at.value_type());
    let mut entries = at.judgement.into_value().entries;
    add_note_if(
        alloc,
        &mut entries,
        disagreeing,
        11,
        b"types do not agree",
        b"",
    )?;
    Ok(entries)
}
