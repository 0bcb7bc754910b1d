//! Parts of headings, by the forms of their nodes.

ghost use Rattle.std.specs.Prelude.{◌≡◌};
ghost use Rattle.pc_syntax.specs.declared.kind.Kind.TheVariants as kind;
ghost use Rattle.pc_headings.specs.Parts.{HasHeads, HasParameters, HasResultType};

use pc_forms::{Form, form_of};
use pc_syntax::Tree;

/// The parameters of a procedure.
pub(crate) fn procedure_part(node: &Tree) -> &Tree
    requires { node.now.kind ≡ kind.Procedure }
    ensures { HasParameters node.now result.now }
{
    match form_of(node) {
        Form::Procedure { params, .. } => params,
        _ => unreachable!(),
    }
}

/// The parameters and the result type of a function.
pub(crate) fn function_parts(node: &Tree) -> (&Tree, &Tree)
    requires { node.now.kind ≡ kind.Function }
    ensures { HasResultType node.now result.0.now result.1.now }
{
    match form_of(node) {
        Form::Function {
            params,
            result_type,
            ..
        } => (params, result_type),
        _ => unreachable!(),
    }
}

/// The names of a program's heading.
pub(crate) fn program_part(node: &Tree) -> &Tree
    requires { node.now.kind ≡ kind.Program }
    ensures { HasHeads node.now result.now }
{
    match form_of(node) {
        Form::Program { heads, .. } => heads,
        _ => unreachable!(),
    }
}
