//! Calls of declared functions, and statements of declared procedures.

ghost use Rattle.std.specs.Prelude.{◌≡◌, List, ℕ, Option, option_copied, length, codes, if◌then◌else◌, None, [], ◌∷◌, IfOk, OnOk};
ghost use Rattle.pc_scope.specs.Required.{is_required_function, is_required_procedure};
ghost use Rattle.pc_syntax.specs.declared.kind.Kind.TheVariants as kind;
ghost use Rattle.pc_types.specs.Rows.{seen};
ghost use Rattle.pc_types.specs.Table.{Table};
ghost use Rattle.pc_rules.specs.Attributes.{Node, kids_below};
ghost use Rattle.pc_rules.specs.HandedOn as handed;
ghost use Rattle.pc_rules.specs.Decorated.{with_kind};
ghost use Rattle.pc_rules.specs.Meanings as rules;
ghost use Rattle.pc_rules.specs.Arguments as rule;
ghost use Rattle.pc_rules.specs.NameClasses.{is_function_class, is_procedure_class};
ghost use Rattle.pc_rules.specs.UsedNames.{name_entries};
ghost use Rattle.pc_rules.specs.Variables as variables;
ghost use Rattle.pc_facts.specs.Known.{Known};
ghost use Rattle.pc_facts.specs.Shows.{ShowsNode, ShowsType, ShowsArgument, AllShow};
ghost use Rattle.pc_call_rules.specs.Parameters.{ShowsRoutine, Logs};
ghost use Rattle.pc_call_rules.specs.Calls.{ShowsCall, formals_in, result_in, miscounts, call_touches};

use crate::lists::{any_hole, arguments_typed, passed_by_place};
use crate::passing::arguments;
use pc_facts::{Argument, Facts, Formal, Named, Signature, Variable, add_kid, add_note_if, either};
use pc_report::ErrorEntry;
use pc_syntax::Kind;
use pc_types::{Operand, Types};
use std::alloc::{AllocError, Global};

/// The statement of a declared procedure, given the entries of its name as one, and its signature, where it has one without an error:
/// row 12, and those of the arguments. The variables that it passes as variable arguments are added to `touched`. Only memory can
/// fail; there is none for more arguments than 32 bits can number.
pub fn declared_procedure(
    alloc: Global,
    types: &Types,
    named: Named,
    entries: Vec<ErrorEntry>,
    signature: Option<&Signature>,
    args: Vec<Argument>,
    touched: &mut Vec<Variable>,
) -> Result<Facts, AllocError>
    ensures found { IfOk result (λ f. (k : Known) (w : List ℕ) (n a : Node) → ShowsCall k (seen types.now) named args.items n a → entries.items ≡ name_entries n is_procedure_class is_required_procedure (codes "procedure") → ShowsRoutine k (option_copied signature.entry) (rule.procedure_signature n.found) → ShowsNode k f (with_kind kind.Proc w (rule.declared_procedure n a))) }
    ensures logged { OnOk result ((k : Known) (n a : Node) → ShowsCall k (seen types.now) named args.items n a → ShowsRoutine k (option_copied signature.entry) (rule.procedure_signature n.found) → Logs k touched.old.items touched.new.items (rule.passed_by_place (rule.formals_of (rule.procedure_signature n.found)) (kids_below a))) }
{
    let passed = args.as_slice();
    let hole = has_hole(named, passed);
    passed_by_place(formals_of(signature), passed, touched)?;
    let all = call_entries(alloc, types, entries, signature, args)?;
    Ok(Facts::statement(alloc, Kind::Proc, hole, all))
}

/// The call of a declared function, likewise; its type is that of the result, where each argument has a type.
pub fn declared_call(
    alloc: Global,
    types: &Types,
    named: Named,
    entries: Vec<ErrorEntry>,
    signature: Option<&Signature>,
    args: Vec<Argument>,
    touched: &mut Vec<Variable>,
) -> Result<Facts, AllocError>
    ensures found { IfOk result (λ f. (k : Known) (w : List ℕ) (n a : Node) → ShowsCall k (seen types.now) named args.items n a → entries.items ≡ name_entries n is_function_class is_required_function (codes "function") → ShowsRoutine k (option_copied signature.entry) (rule.function_signature n.found) → ShowsNode k f (with_kind kind.Call w (rule.declared_call n a))) }
    ensures logged { OnOk result ((k : Known) (n a : Node) → ShowsCall k (seen types.now) named args.items n a → ShowsRoutine k (option_copied signature.entry) (rule.function_signature n.found) → Logs k touched.old.items touched.new.items (call_touches n.found (kids_below a))) }
{
    let passed = args.as_slice();
    let hole = has_hole(named, passed);
    let of = called_type(signature, passed)?;
    passed_by_place(formals_of(signature), passed, touched)?;
    let all = call_entries(alloc, types, entries, signature, args)?;
    Ok(Facts::expression(Kind::Call, hole, all, of))
}

/// Whether a hole stands in a call.
pub(crate) fn has_hole(named: Named, args: &[Argument]) -> bool
    ensures { (k : Known) (t : Table) (n a : Node) → ShowsCall k t named args.now n a → handed.any_hole (n ∷ a ∷ []) ≡ result }
{
    either(named.hole, any_hole(args))
}

/// The entries of a call, given those of its name. Only memory can fail.
fn call_entries(
    alloc: Global,
    types: &Types,
    name: Vec<ErrorEntry>,
    signature: Option<&Signature>,
    args: Vec<Argument>,
) -> Result<Vec<ErrorEntry>, AllocError>
    ensures { IfOk result (λ es. (k : Known) (s : Option rules.Signature) (ns : List Node) → k.table ≡ seen types.now → ShowsRoutine k (option_copied signature.entry) s → AllShow (ShowsArgument k) args.items ns → es.items ≡ rule.call_entries name.items s ns) }
{
    let wrong = is_miscounted(signature, args.as_slice());
    let mut entries = Vec::new(alloc);
    add_kid(&mut entries, 1, name)?;
    let of_all = arguments(alloc, types, formals_of(signature), args)?;
    add_kid(&mut entries, 2, of_all)?;
    add_note_if(
        alloc,
        &mut entries,
        wrong,
        12,
        b"wrong number of arguments",
        b"",
    )?;
    Ok(entries)
}

/// The type of a call.
fn called_type(
    signature: Option<&Signature>,
    args: &[Argument],
) -> Result<Option<Operand>, AllocError>
    ensures { IfOk result (λ o. (k : Known) (s : Option rules.Signature) (ns : List Node) → ShowsRoutine k (option_copied signature.entry) s → AllShow (ShowsArgument k) args.now ns → ShowsType k.table o (if rule.arguments_typed (rule.formals_of s) ns then variables.result_of s else None)) }
{
    let typed = arguments_typed(formals_of(signature), args)?;
    Ok(type_if(typed, result_of(signature)))
}

/// The type where the condition holds.
fn type_if(is_so: bool, of: Option<Operand>) -> Option<Operand>
    ensures { result ≡ (if is_so then of else None) }
{
    if is_so { of } else { None }
}

/// The formal parameters.
fn formals_of(signature: Option<&Signature>) -> &[Formal]
    ensures { result.now ≡ formals_in (option_copied signature.entry) }
{
    match signature {
        Some(known) => known.formals.as_slice(),
        None => &[],
    }
}

/// The result type.
fn result_of(signature: Option<&Signature>) -> Option<Operand>
    ensures { result ≡ result_in (option_copied signature.entry) }
{
    match signature {
        Some(known) => match known.result {
            Some(of) => Some(Operand::Id(of)),
            None => None,
        },
        None => None,
    }
}

/// Whether the signature is known, and has another number of parameters.
fn is_miscounted(signature: Option<&Signature>, args: &[Argument]) -> bool
    ensures { result ≡ miscounts (option_copied signature.entry) (length args.now) }
{
    match signature {
        Some(known) => known.formals.as_slice().len() != args.len(),
        None => false,
    }
}
