//! Calls of required functions (ISO 7185, 6.6.6).

ghost use Rattle.std.specs.Prelude.{◌≡◌, ◌++◌, List, ℕ, Option, length, not, ◌==◌, codes, if◌then◌else◌, IfOk, OnOk};
ghost use Rattle.pc_scope.specs.Spelled.{spelling};
ghost use Rattle.pc_syntax.specs.declared.kind.Kind.TheVariants as kind;
ghost use Rattle.pc_types.specs.Shapes.{Typed};
ghost use Rattle.pc_types.specs.Rows.{seen};
ghost use Rattle.pc_rules.specs.Attributes.{Node, at_kid};
ghost use Rattle.pc_rules.specs.Decorated.{with_kind};
ghost use Rattle.pc_rules.specs.Entries.{note_if, wrong_number};
ghost use Rattle.pc_rules.specs.HandedOn.{kid_entries};
ghost use Rattle.pc_rules.specs.RequiredFunctions as rule;
ghost use Rattle.pc_facts.specs.Known.{Known};
ghost use Rattle.pc_facts.specs.Shows.{ShowsNode, ShowsType, ShowsArgument, AllShow};
ghost use Rattle.pc_call_rules.specs.Calls.{ShowsCall};

use crate::declared::has_hole;
use crate::purpose::{Purpose, each_argument};
use crate::required::{behind_file, has_file, is_end_test, number_behind, spelled};
use pc_facts::{
    Argument, Facts, Named, add_kid, add_note, add_note_if, either, is_known, is_unknown,
};
use pc_judgements::function_result;
use pc_report::ErrorEntry;
use pc_scope::Builtin;
use pc_syntax::Kind;
use pc_types::{Operand, Types};
use std::alloc::{AllocError, Global};

/// The call of a required function: rows 11 and 12, and those of the arguments. Only memory can fail; there is none for more
/// arguments than 32 bits can number.
pub fn required_call(
    alloc: Global,
    types: &Types,
    builtin: Builtin,
    named: Named,
    args: Vec<Argument>,
) -> Result<Facts, AllocError>
    ensures { IfOk result (λ f. (k : Known) (w : List ℕ) (n a : Node) → ShowsCall k (seen types.now) named args.items n a → ShowsNode k f (with_kind kind.Call w (rule.required_call (spelling builtin) n a))) }
{
    if is_end_test(builtin) {
        end_test(alloc, types, named, args)
    } else {
        function_of_one(alloc, types, builtin, named, args)
    }
}

/// eof and eoln with arguments: the one argument is the file input.
pub fn end_test(
    alloc: Global,
    types: &Types,
    named: Named,
    args: Vec<Argument>,
) -> Result<Facts, AllocError>
    ensures { IfOk result (λ f. (k : Known) (w : List ℕ) (n a : Node) → ShowsCall k (seen types.now) named args.items n a → ShowsNode k f (with_kind kind.Call w (rule.end_test n a))) }
{
    let passed = args.as_slice();
    let hole = has_hole(named, passed);
    let of_file = has_file(b"input", passed);
    let fits = either(of_file, is_unknown(first_type(passed)));
    let single = is_single(passed);
    let rest = behind_file(of_file, args);
    let all = one_argument(alloc, types, number_behind(of_file), rest, single, fits)?;
    Ok(Facts::expression(Kind::Call, hole, all, Some(types.boolean())))
}

/// A required function of one value, as ord, succ and abs.
pub fn function_of_one(
    alloc: Global,
    types: &Types,
    builtin: Builtin,
    named: Named,
    args: Vec<Argument>,
) -> Result<Facts, AllocError>
    ensures { IfOk result (λ f. (k : Known) (w : List ℕ) (n a : Node) → ShowsCall k (seen types.now) named args.items n a → ShowsNode k f (with_kind kind.Call w (rule.function_of_one (spelling builtin) n a))) }
{
    let passed = args.as_slice();
    let hole = has_hole(named, passed);
    let first = first_type(passed);
    let of = applied(types, spelled(builtin), first);
    let fits = either(is_unknown(first), is_known(of));
    let single = is_single(passed);
    let all = one_argument(alloc, types, 1, args, single, fits)?;
    Ok(Facts::expression(Kind::Call, hole, all, of))
}

/// The entries of the arguments as values, the first of which has this number, and rows 12 and 11 of a function that takes one.
fn one_argument(
    alloc: Global,
    types: &Types,
    first: u32,
    args: Vec<Argument>,
    single: bool,
    fits: bool,
) -> Result<Vec<ErrorEntry>, AllocError>
    ensures { IfOk result (λ es. (k : Known) (ns : List Node) → k.table ≡ seen types.now → AllShow (ShowsArgument k) args.items ns → es.items ≡ at_kid 2 (kid_entries first ns) ++ (if single then note_if (not fits) 11 (codes "types do not agree") else wrong_number)) }
{
    let mut entries = Vec::new(alloc);
    let values = each_argument(alloc, types, Purpose::Value, first, args)?;
    add_kid(&mut entries, 2, values)?;
    add_misfit(alloc, &mut entries, single, fits)?;
    Ok(entries)
}

/// Adds row 11 of the one argument, or row 12.
fn add_misfit(
    alloc: Global,
    entries: &mut Vec<ErrorEntry>,
    single: bool,
    fits: bool,
) -> Result<(), AllocError>
    ensures { OnOk result (entries.new.items ≡ entries.old.items ++ (if single then note_if (not fits) 11 (codes "types do not agree") else wrong_number)) }
{
    if single {
        add_note_if(alloc, entries, !fits, 11, b"types do not agree", b"")
    } else {
        add_note(alloc, entries, 12, b"wrong number of arguments", b"")
    }
}

/// The type of the first argument.
fn first_type(args: &[Argument]) -> Option<Operand>
    ensures { (k : Known) (ns : List Node) → AllShow (ShowsArgument k) args.now ns → ShowsType k.table result (rule.type_of_first ns) }
{
    match args {
        [first, ..] => first.at.value_type(),
        [] => None,
    }
}

/// What a required function with this name makes of a type that may be unknown.
fn applied(types: &Types, name: &[u8], of: Option<Operand>) -> Option<Operand>
    ensures { (t : Option Typed) → ShowsType (seen types.now) of t → ShowsType (seen types.now) result (rule.apply_function name.now t) }
{
    match of {
        Some(known) => function_result(types, name, known),
        None => None,
    }
}

/// Whether there is just one argument.
pub(crate) fn is_single(args: &[Argument]) -> bool
    ensures { result ≡ (length args.now == 1) }
{
    args.len() == 1
}
