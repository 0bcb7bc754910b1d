//! Calls and procedure statements, by what their names mean.

ghost use Rattle.std.specs.Prelude.{◌≡◌, List, ℕ, option_copied, codes, IfOk, OnOk};
ghost use Rattle.pc_scope.specs.Spelled.{spelling};
ghost use Rattle.pc_scope.specs.Required.{is_required_function, is_required_procedure};
ghost use Rattle.pc_syntax.specs.declared.kind.Kind.TheVariants as kind;
ghost use Rattle.pc_types.specs.Rows.{seen};
ghost use Rattle.pc_rules.specs.Attributes.{Node, kids_below};
ghost use Rattle.pc_rules.specs.Arguments as rule;
ghost use Rattle.pc_rules.specs.Decorated.{with_kind};
ghost use Rattle.pc_rules.specs.NameClasses.{is_function_class, is_procedure_class};
ghost use Rattle.pc_rules.specs.RequiredFunctions as functions;
ghost use Rattle.pc_rules.specs.RequiredProcedures as procedures;
ghost use Rattle.pc_rules.specs.UsedNames.{name_entries};
ghost use Rattle.pc_facts.specs.Known.{Known};
ghost use Rattle.pc_facts.specs.Shows.{ShowsNode};
ghost use Rattle.pc_call_rules.specs.Calls.{ShowsCall, call_touches, procedure_touches, required_touches, silent_procedure};
ghost use Rattle.pc_call_rules.specs.Parameters.{ShowsRoutine, Logs};

use crate::declared::{declared_call, declared_procedure};
use crate::functions::required_call;
use crate::procedures::{input_procedure, output_procedure, pointer_procedure};
use crate::purpose::Purpose;
use crate::required::{function_of, is_named, procedure_of};
use pc_facts::{Argument, Facts, Named, Signature, Variable};
use pc_report::ErrorEntry;
use pc_scope::Builtin;
use pc_types::Types;
use std::alloc::{AllocError, Global};

/// The call of a function with arguments, given the entries of its name as that of a function, and its signature, where it has one
/// without an error. The variables that it passes as variable arguments are added to `touched`. Only memory can fail; there is none
/// for more arguments than 32 bits can number.
pub fn call(
    alloc: Global,
    types: &Types,
    named: Named,
    entries: Vec<ErrorEntry>,
    signature: Option<&Signature>,
    args: Vec<Argument>,
    touched: &mut Vec<Variable>,
) -> Result<Facts, AllocError>
    ensures found { IfOk result (λ f. (k : Known) (w : List ℕ) (n a : Node) → ShowsCall k (seen types.now) named args.items n a → entries.items ≡ name_entries n is_function_class is_required_function (codes "function") → ShowsRoutine k (option_copied signature.entry) (rule.function_signature n.found) → ShowsNode k f (with_kind kind.Call w (functions.call_rule n a))) }
    ensures logged { OnOk result ((k : Known) (n a : Node) → ShowsCall k (seen types.now) named args.items n a → ShowsRoutine k (option_copied signature.entry) (rule.function_signature n.found) → Logs k touched.old.items touched.new.items (call_touches n.found (kids_below a))) }
{
    if let Some(builtin) = function_of(named.sighting) {
        return Ok(required_call(alloc, types, builtin, named, args)?);
    }
    Ok(declared_call(alloc, types, named, entries, signature, args, touched)?)
}

/// A procedure statement, given the entries of its name as that of a procedure, and its signature, likewise. The variables that it
/// reads or passes as variable arguments are added to `touched`.
pub fn procedure(
    alloc: Global,
    types: &Types,
    named: Named,
    entries: Vec<ErrorEntry>,
    signature: Option<&Signature>,
    args: Vec<Argument>,
    touched: &mut Vec<Variable>,
) -> Result<Facts, AllocError>
    ensures found { IfOk result (λ f. (k : Known) (w : List ℕ) (n a : Node) → ShowsCall k (seen types.now) named args.items n a → entries.items ≡ name_entries n is_procedure_class is_required_procedure (codes "procedure") → ShowsRoutine k (option_copied signature.entry) (rule.procedure_signature n.found) → ShowsNode k f (with_kind kind.Proc w (procedures.procedure_rule n a))) }
    ensures logged { OnOk result ((k : Known) (n a : Node) → ShowsCall k (seen types.now) named args.items n a → ShowsRoutine k (option_copied signature.entry) (rule.procedure_signature n.found) → Logs k touched.old.items touched.new.items (procedure_touches n.found (kids_below a))) }
{
    if let Some(builtin) = procedure_of(named.sighting) {
        return Ok(required_procedure(alloc, types, builtin, named, args, touched)?);
    }
    Ok(declared_procedure(alloc, types, named, entries, signature, args, touched)?)
}

/// The statement of a required procedure; of one that is none, as of dispose.
pub fn required_procedure(
    alloc: Global,
    types: &Types,
    builtin: Builtin,
    named: Named,
    args: Vec<Argument>,
    touched: &mut Vec<Variable>,
) -> Result<Facts, AllocError>
    ensures found { IfOk result (λ f. (k : Known) (w : List ℕ) (n a : Node) → ShowsCall k (seen types.now) named args.items n a → ShowsNode k f (with_kind kind.Proc w (procedures.required_procedure (spelling builtin) n a))) }
    ensures logged { OnOk result ((k : Known) (n a : Node) → ShowsCall k (seen types.now) named args.items n a → Logs k touched.old.items touched.new.items (required_touches (spelling builtin) (kids_below a))) }
{
    if is_named(builtin, b"read") {
        return Ok(input_procedure(alloc, types, true, named, args, touched)?);
    }
    if is_named(builtin, b"readln") {
        return Ok(input_procedure(alloc, types, false, named, args, touched)?);
    }
    Ok(silent_procedure(alloc, types, builtin, named, args)?)
}

/// The statement of a required procedure that touches no variable itself.
fn silent_procedure(
    alloc: Global,
    types: &Types,
    builtin: Builtin,
    named: Named,
    args: Vec<Argument>,
) -> Result<Facts, AllocError>
    ensures { IfOk result (λ f. (k : Known) (w : List ℕ) (n a : Node) → ShowsCall k (seen types.now) named args.items n a → ShowsNode k f (with_kind kind.Proc w (silent_procedure (spelling builtin) n a))) }
{
    if is_named(builtin, b"write") {
        return Ok(output_procedure(alloc, types, true, named, args)?);
    }
    if is_named(builtin, b"writeln") {
        return Ok(output_procedure(alloc, types, false, named, args)?);
    }
    if is_named(builtin, b"new") {
        return Ok(pointer_procedure(alloc, types, Purpose::New, named, args)?);
    }
    Ok(pointer_procedure(alloc, types, Purpose::Dispose, named, args)?)
}
