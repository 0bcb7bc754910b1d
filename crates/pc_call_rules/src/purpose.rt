//! Arguments of required functions and procedures, each by what is done with it.

ghost use Rattle.std.specs.Prelude.{◌≡◌, ◌++◌, List, ℕ, option_map, codes, IfOk};
ghost use Rattle.pc_types.specs.Rows.{seen};
ghost use Rattle.pc_types.specs.Table.{shape_at};
ghost use Rattle.pc_types.specs.TypeClasses.{is_pointer};
ghost use Rattle.pc_rules.specs.Attributes.{Node, each_kid, first_below, second_below};
ghost use Rattle.pc_rules.specs.Arguments.{no_width};
ghost use Rattle.pc_rules.specs.Components.{no_pointer};
ghost use Rattle.pc_rules.specs.Entries.{note, unless};
ghost use Rattle.pc_rules.specs.RequiredProcedures as rule;
ghost use Rattle.pc_judgements.specs.Judged.{is_unfit};
ghost use Rattle.pc_facts.specs.Known.{Known};
ghost use Rattle.pc_facts.specs.Shows.{ShowsNode, ShowsType, ShowsArgument, AllShow};
ghost use Rattle.pc_call_rules.specs.Purposes.{entries_by};

use crate::notes::{is_width, misplaced_width, not_a_variable};
use crate::passing::next;
use pc_facts::{Argument, Facts, add_kid, add_note_if};
use pc_judgements::{can_be_read, can_be_written, is_integer_ordinal};
use pc_report::ErrorEntry;
use pc_syntax::Class;
use pc_types::{Operand, Types};
use std::alloc::{AllocError, Global};

/// What a required function or procedure does with an argument.
#[derive(Clone, Copy, Debug, PartialEq, Eq)]
pub enum Purpose {
    Value,
    Read,
    Write,
    New,
    Dispose,
}

/// The entries of arguments, the first of which has this number in their list. Only memory can fail; there is none for more
/// arguments than 32 bits can number.
pub(crate) fn each_argument(
    alloc: Global,
    types: &Types,
    purpose: Purpose,
    first: u32,
    args: Vec<Argument>,
) -> Result<Vec<ErrorEntry>, AllocError>
    ensures { IfOk result (λ es. (k : Known) (ns : List Node) → k.table ≡ seen types.now → AllShow (ShowsArgument k) args.items ns → es.items ≡ each_kid (entries_by purpose) first ns) }
{
    let mut entries = Vec::new(alloc);
    let mut number = first;
    for passed in args {
        let of_one = argument_for(alloc, types, purpose, passed)?;
        add_kid(&mut entries, number, of_one)?;
        number = next(number)?;
    }
    Ok(entries)
}

/// The entries of an argument: rows 13, 15, 23 and 24. Only memory can fail.
pub fn argument_for(
    alloc: Global,
    types: &Types,
    purpose: Purpose,
    argument: Argument,
) -> Result<Vec<ErrorEntry>, AllocError>
    ensures { IfOk result (λ es. (k : Known) (n : Node) → k.table ≡ seen types.now → ShowsArgument k argument n → es.items ≡ entries_by purpose n) }
{
    match purpose {
        Purpose::Value => Ok(argument.at.judgement.into_value().entries),
        Purpose::Read => read_argument(alloc, types, argument.at),
        Purpose::Write => write_argument(alloc, types, argument),
        Purpose::New => new_argument(alloc, types, argument.at),
        Purpose::Dispose => dispose_argument(alloc, types, argument.at),
    }
}

fn read_argument(alloc: Global, types: &Types, at: Facts) -> Result<Vec<ErrorEntry>, AllocError>
    ensures { IfOk result (λ es. (k : Known) (n : Node) → k.table ≡ seen types.now → ShowsNode k at n.at → es.items ≡ rule.read_entries n) }
{
    if is_width(at.kind) {
        misplaced_width(alloc, true, at)
    } else if Class::Access.has(at.kind) {
        read_variable(alloc, types, at)
    } else {
        not_a_variable(alloc, at)
    }
}

/// A variable that is read.
fn read_variable(alloc: Global, types: &Types, at: Facts) -> Result<Vec<ErrorEntry>, AllocError>
    ensures { IfOk result (λ es. (k : Known) (n : Node) → k.table ≡ seen types.now → ShowsNode k at n.at → es.items ≡ n.as_place.entries ++ unless rule.can_be_read n.as_place.type (note 23 (codes "cannot be read"))) }
{
    let unfit = is_unreadable(types, at.place_type());
    let mut entries = at.judgement.into_place().entries;
    add_note_if(alloc, &mut entries, unfit, 23, b"cannot be read", b"")?;
    Ok(entries)
}

fn is_unreadable(types: &Types, of: Option<Operand>) -> bool
    ensures { result ≡ is_unfit rule.can_be_read (option_map (shape_at (seen types.now)) of) }
{
    match of {
        Some(known) => !can_be_read(types, known),
        None => false,
    }
}

fn write_argument(
    alloc: Global,
    types: &Types,
    argument: Argument,
) -> Result<Vec<ErrorEntry>, AllocError>
    ensures { IfOk result (λ es. (k : Known) (n : Node) → k.table ≡ seen types.now → ShowsArgument k argument n → es.items ≡ rule.write_entries n) }
{
    if is_width(argument.at.kind) {
        write_with_width(alloc, types, argument.first, argument.second, argument.at)
    } else {
        write_value(alloc, types, argument.at)
    }
}

/// A value that is written with a width.
fn write_with_width(
    alloc: Global,
    types: &Types,
    first: Option<Operand>,
    second: Option<Operand>,
    at: Facts,
) -> Result<Vec<ErrorEntry>, AllocError>
    ensures { IfOk result (λ es. (k : Known) (n : Node) → k.table ≡ seen types.now → ShowsNode k at n.at → ShowsType k.table first (first_below n).as_value.type → ShowsType k.table second (second_below n).as_value.type → es.items ≡ n.as_value.entries ++ rule.unwritable (first_below n) ++ unless rule.is_integer_ordinal (second_below n).as_value.type no_width) }
{
    let unfit = is_unwritable(types, first);
    let misfit = is_no_width(types, second);
    let mut entries = at.judgement.into_value().entries;
    add_note_if(alloc, &mut entries, unfit, 23, b"cannot be written", b"")?;
    add_note_if(alloc, &mut entries, misfit, 24, b"width not allowed", b"")?;
    Ok(entries)
}

/// A value that is written.
fn write_value(alloc: Global, types: &Types, at: Facts) -> Result<Vec<ErrorEntry>, AllocError>
    ensures { IfOk result (λ es. (k : Known) (n : Node) → k.table ≡ seen types.now → ShowsNode k at n.at → es.items ≡ n.as_value.entries ++ rule.unwritable n) }
{
    let unfit = is_unwritable(types, at.value_type());
    let mut entries = at.judgement.into_value().entries;
    add_note_if(alloc, &mut entries, unfit, 23, b"cannot be written", b"")?;
    Ok(entries)
}

fn is_unwritable(types: &Types, of: Option<Operand>) -> bool
    ensures { result ≡ is_unfit rule.can_be_written (option_map (shape_at (seen types.now)) of) }
{
    match of {
        Some(known) => !can_be_written(types, known),
        None => false,
    }
}

fn is_no_width(types: &Types, of: Option<Operand>) -> bool
    ensures { result ≡ is_unfit rule.is_integer_ordinal (option_map (shape_at (seen types.now)) of) }
{
    match of {
        Some(known) => !is_integer_ordinal(types, known),
        None => false,
    }
}

fn new_argument(alloc: Global, types: &Types, at: Facts) -> Result<Vec<ErrorEntry>, AllocError>
    ensures { IfOk result (λ es. (k : Known) (n : Node) → k.table ≡ seen types.now → ShowsNode k at n.at → es.items ≡ rule.new_entries n) }
{
    if is_width(at.kind) {
        misplaced_width(alloc, true, at)
    } else if Class::Access.has(at.kind) {
        new_variable(alloc, types, at)
    } else {
        not_a_variable(alloc, at)
    }
}

/// A pointer variable that is given a new value.
fn new_variable(alloc: Global, types: &Types, at: Facts) -> Result<Vec<ErrorEntry>, AllocError>
    ensures { IfOk result (λ es. (k : Known) (n : Node) → k.table ≡ seen types.now → ShowsNode k at n.at → es.items ≡ n.as_place.entries ++ no_pointer is_pointer n.as_place.type) }
{
    let unfit = is_no_pointer(types, at.place_type());
    let mut entries = at.judgement.into_place().entries;
    add_note_if(alloc, &mut entries, unfit, 15, b"not a pointer", b"")?;
    Ok(entries)
}

fn dispose_argument(alloc: Global, types: &Types, at: Facts) -> Result<Vec<ErrorEntry>, AllocError>
    ensures { IfOk result (λ es. (k : Known) (n : Node) → k.table ≡ seen types.now → ShowsNode k at n.at → es.items ≡ rule.dispose_entries n) }
{
    if is_width(at.kind) {
        misplaced_width(alloc, false, at)
    } else {
        dispose_value(alloc, types, at)
    }
}

/// A pointer that is disposed of.
fn dispose_value(alloc: Global, types: &Types, at: Facts) -> Result<Vec<ErrorEntry>, AllocError>
    ensures { IfOk result (λ es. (k : Known) (n : Node) → k.table ≡ seen types.now → ShowsNode k at n.at → es.items ≡ n.as_value.entries ++ no_pointer is_pointer n.as_value.type) }
{
    let unfit = is_no_pointer(types, at.value_type());
    let mut entries = at.judgement.into_value().entries;
    add_note_if(alloc, &mut entries, unfit, 15, b"not a pointer", b"")?;
    Ok(entries)
}

fn is_no_pointer(types: &Types, of: Option<Operand>) -> bool
    ensures { result ≡ is_unfit is_pointer (option_map (shape_at (seen types.now)) of) }
{
    match of {
        Some(known) => !types.is_pointer(known),
        None => false,
    }
}
