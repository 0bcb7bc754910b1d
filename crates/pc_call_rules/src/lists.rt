//! What arguments have together.

ghost use Rattle.std.specs.Prelude.{◌≡◌, List, ℕ, Option, if◌then◌else◌, [], IfOk, OnOk};
ghost use Rattle.std.specs.Option.{is_some};
ghost use Rattle.pc_types.specs.Shapes.{Owner};
ghost use Rattle.pc_rules.specs.Attributes.{Node};
ghost use Rattle.pc_rules.specs.HandedOn as handed;
ghost use Rattle.pc_rules.specs.Meanings as rules;
ghost use Rattle.pc_rules.specs.Arguments as rule;
ghost use Rattle.pc_rules.specs.RequiredProcedures as procedures;
ghost use Rattle.pc_facts.specs.Known.{Known};
ghost use Rattle.pc_facts.specs.Shows.{ShowsNode, ShowsVariable, ShowsFormals, ShowsArgument, AllShow};
ghost use Rattle.pc_call_rules.specs.Parameters.{Logs};

use crate::passing::{formal_at, is_by_place, next};
use pc_facts::{Argument, Facts, Formal, Variable, both, either, is_known};
use std::alloc::AllocError;

/// Whether a hole stands in one of the arguments.
pub fn any_hole(args: &[Argument]) -> bool
    ensures { (k : Known) (ns : List Node) → AllShow (ShowsArgument k) args.now ns → result ≡ handed.any_hole ns }
{
    let mut hole = false;
    for passed in args {
        hole = either(hole, passed.at.hole);
    }
    hole
}

/// Whether each argument has a type, as a variable where its formal parameter is a variable parameter, and else as a value. Only
/// memory can fail; there is none for more arguments than 32 bits can number.
pub fn arguments_typed(formals: &[Formal], args: &[Argument]) -> Result<bool, AllocError>
    ensures { IfOk result (λ typed. (k : Known) (fs : List rules.Formal) (ns : List Node) → ShowsFormals k formals.now fs → AllShow (ShowsArgument k) args.now ns → typed ≡ rule.arguments_typed fs ns) }
{
    let mut typed = true;
    let mut number = 0;
    for passed in args {
        typed = both(
            typed,
            is_typed(is_by_place(formal_at(formals, number)), &passed.at),
        );
        number = next(number)?;
    }
    Ok(typed)
}

/// Whether an argument has a type.
fn is_typed(by_place: bool, at: &Facts) -> bool
    ensures { (k : Known) (f : Option rules.Formal) (n : Node) → by_place ≡ rule.is_by_place f → ShowsNode k at.now n.at → result ≡ is_some (rule.argument_type f n) }
{
    if by_place {
        is_known(at.place_type())
    } else {
        is_known(at.value_type())
    }
}

/// Adds the variables that are arguments of variable parameters. Only memory can fail; there is none for more arguments than 32
/// bits can number.
pub fn passed_by_place(
    formals: &[Formal],
    args: &[Argument],
    touched: &mut Vec<Variable>,
) -> Result<(), AllocError>
    ensures { OnOk result ((k : Known) (fs : List rules.Formal) (ns : List Node) → ShowsFormals k formals.now fs → AllShow (ShowsArgument k) args.now ns → Logs k touched.old.items touched.new.items (rule.passed_by_place fs ns)) }
{
    let mut number = 0;
    for passed in args {
        touch_if(
            is_by_place(formal_at(formals, number)),
            passed.at.variable,
            touched,
        )?;
        number = next(number)?;
    }
    Ok(())
}

/// Adds the variables that arguments are.
pub(crate) fn read_variables(
    args: &[Argument],
    touched: &mut Vec<Variable>,
) -> Result<(), AllocError>
    ensures { OnOk result ((k : Known) (ns : List Node) → AllShow (ShowsArgument k) args.now ns → Logs k touched.old.items touched.new.items (procedures.read_variables ns)) }
{
    for passed in args {
        touch_if(true, passed.at.variable, touched)?;
    }
    Ok(())
}

/// Adds a variable, if there is one and the condition holds.
fn touch_if(
    is_so: bool,
    variable: Option<Variable>,
    touched: &mut Vec<Variable>,
) -> Result<(), AllocError>
    ensures { OnOk result ((k : Known) (ws : List (Owner × List ℕ)) → ShowsVariable k variable ws → Logs k touched.old.items touched.new.items (if is_so then ws else [])) }
{
    match variable {
        Some(whole) if is_so => touched.push(whole)?,
        _ => {}
    }
    Ok(())
}
