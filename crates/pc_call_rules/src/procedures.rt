//! Statements of required procedures (ISO 7185, 6.6.5.3, 6.9).

ghost use Rattle.std.specs.Prelude.{◌≡◌, List, ℕ, [], ◌∷◌, ◌==◌, length, IfOk, OnOk, codes};
ghost use Rattle.pc_syntax.specs.declared.kind.Kind.TheVariants as kind;
ghost use Rattle.pc_types.specs.Shapes.{Owner};
ghost use Rattle.pc_types.specs.Rows.{seen};
ghost use Rattle.pc_rules.specs.Attributes.{Node, kids_below};
ghost use Rattle.pc_rules.specs.Decorated.{with_kind};
ghost use Rattle.pc_rules.specs.HandedOn.{statement_node};
ghost use Rattle.pc_rules.specs.RequiredFunctions as functions;
ghost use Rattle.pc_rules.specs.RequiredProcedures as rule;
ghost use Rattle.pc_facts.specs.Known.{Known};
ghost use Rattle.pc_facts.specs.Shows.{ShowsNode};
ghost use Rattle.pc_call_rules.specs.Calls.{ShowsCall};
ghost use Rattle.pc_call_rules.specs.Parameters.{Logs};
ghost use Rattle.pc_call_rules.specs.Purposes.{entries_by};

use crate::declared::has_hole;
use crate::functions::is_single;
use crate::lists::read_variables;
use crate::purpose::{Purpose, each_argument};
use crate::required::{behind, behind_file, has_file, number_behind};
use pc_facts::{Argument, Facts, Named, Variable, add_kid, add_note_if, both};
use pc_syntax::Kind;
use pc_types::Types;
use std::alloc::{AllocError, Global};

/// read, which needs an argument, and readln: rows 12, 13, 23 and 24. The variables that are read are added to `touched`. Only memory
/// can fail; there is none for more arguments than 32 bits can number.
pub fn input_procedure(
    alloc: Global,
    types: &Types,
    needs: bool,
    named: Named,
    args: Vec<Argument>,
    touched: &mut Vec<Variable>,
) -> Result<Facts, AllocError>
    ensures found { IfOk result (λ f. (k : Known) (w : List ℕ) (n a : Node) → ShowsCall k (seen types.now) named args.items n a → ShowsNode k f (with_kind kind.Proc w (rule.input_procedure needs n a))) }
    ensures logged { OnOk result ((k : Known) (n a : Node) → ShowsCall k (seen types.now) named args.items n a → Logs k touched.old.items touched.new.items (rule.read_variables (rule.behind_file (functions.has_file (codes "input") (kids_below a)) (kids_below a)))) }
{
    let passed = args.as_slice();
    let of_file = has_file(b"input", passed);
    read_variables(behind(of_file, passed), touched)?;
    Ok(file_procedure(alloc, types, Purpose::Read, needs, of_file, named, args)?)
}

/// write, which needs an argument, and writeln: rows 12, 23 and 24.
pub fn output_procedure(
    alloc: Global,
    types: &Types,
    needs: bool,
    named: Named,
    args: Vec<Argument>,
) -> Result<Facts, AllocError>
    ensures { IfOk result (λ f. (k : Known) (w : List ℕ) (n a : Node) → ShowsCall k (seen types.now) named args.items n a → ShowsNode k f (with_kind kind.Proc w (rule.output_procedure needs n a))) }
{
    let of_file = has_file(b"output", args.as_slice());
    Ok(file_procedure(alloc, types, Purpose::Write, needs, of_file, named, args)?)
}

/// A procedure on a file, whose name may stand first.
fn file_procedure(
    alloc: Global,
    types: &Types,
    purpose: Purpose,
    needs: bool,
    of_file: bool,
    named: Named,
    args: Vec<Argument>,
) -> Result<Facts, AllocError>
    ensures { IfOk result (λ f. (k : Known) (w : List ℕ) (n a : Node) (ts : List (Owner × List ℕ)) → ShowsCall k (seen types.now) named args.items n a → ShowsNode k f (with_kind kind.Proc w (statement_node (n ∷ a ∷ []) (rule.file_entries (entries_by purpose) needs of_file (kids_below a)) ts))) }
{
    let hole = has_hole(named, args.as_slice());
    let rest = behind_file(of_file, args);
    let lacking = both(needs, is_without(rest.as_slice()));
    let mut entries = Vec::new(alloc);
    let of_all = each_argument(alloc, types, purpose, number_behind(of_file), rest)?;
    add_kid(&mut entries, 2, of_all)?;
    add_note_if(
        alloc,
        &mut entries,
        lacking,
        12,
        b"wrong number of arguments",
        b"",
    )?;
    Ok(Facts::statement(alloc, Kind::Proc, hole, entries))
}

/// new and dispose, which take one argument: rows 12, 13, 15 and 24.
pub fn pointer_procedure(
    alloc: Global,
    types: &Types,
    purpose: Purpose,
    named: Named,
    args: Vec<Argument>,
) -> Result<Facts, AllocError>
    ensures { IfOk result (λ f. (k : Known) (w : List ℕ) (n a : Node) → ShowsCall k (seen types.now) named args.items n a → ShowsNode k f (with_kind kind.Proc w (rule.pointer_procedure (entries_by purpose) n a))) }
{
    let passed = args.as_slice();
    let hole = has_hole(named, passed);
    let wrong = !is_single(passed);
    let mut entries = Vec::new(alloc);
    let of_all = each_argument(alloc, types, purpose, 1, args)?;
    add_kid(&mut entries, 2, of_all)?;
    add_note_if(
        alloc,
        &mut entries,
        wrong,
        12,
        b"wrong number of arguments",
        b"",
    )?;
    Ok(Facts::statement(alloc, Kind::Proc, hole, entries))
}

/// Whether there is no argument.
fn is_without(args: &[Argument]) -> bool
    ensures { result ≡ (length args.now == 0) }
{
    args.is_empty()
}
