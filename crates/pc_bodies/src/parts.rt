//! Parts of expressions, by the forms of their nodes, and what is made of them without going further down.

ghost use Rattle.std.specs.Prelude.{◌≡◌, ◌∷◌, [], ℕ, List, Option, option_copied, IfOk};
ghost use Rattle.pc_syntax.specs.Sorts as sorts;
ghost use Rattle.pc_syntax.specs.declared.kind.Kind.TheVariants as kind;
ghost use Rattle.pc_forms.specs.declared.form.Form.TheVariants as form;
ghost use Rattle.pc_forms.specs.Form.{form_of};
ghost use Rattle.pc_rules.specs.Arguments as arguments;
ghost use Rattle.pc_rules.specs.Attributes.{Node};
ghost use Rattle.pc_rules.specs.Decorated.{with_kind};
ghost use Rattle.pc_rules.specs.HandedOn.{handed_on};
ghost use Rattle.pc_rules.specs.Meanings.{Found, Signature as Routine};
ghost use Rattle.pc_call_rules.specs.Parameters.{ShowsRoutine};
ghost use Rattle.pc_facts.specs.Known.{Known};
ghost use Rattle.pc_facts.specs.Shows.{ShowsFound, ShowsNode, ShowsSignatures};

use pc_facts::{Facts, Sighting, Signature, SignatureId};
use pc_forms::{Expression, Form, form_of};
use pc_names::NameClass;
use pc_statement_rules::Handing;
use pc_syntax::{Kind, Tree};
use std::alloc::{AllocError, Global};

/// A value with a width, which hands on what both have.
pub(crate) fn with_width(alloc: Global, value: Facts, width: Facts) -> Result<Facts, AllocError>
    ensures { IfOk result (λ f. (k : Known) (w : List ℕ) (m n : Node) → ShowsNode k value m.at → ShowsNode k width n.at → ShowsNode k f (with_kind kind.Width w (handed_on (m ∷ n ∷ [])))) }
{
    let mut both = Handing::new(alloc);
    both.add(value)?;
    both.add(width)?;
    Ok(both.finish(alloc, Kind::Width))
}

/// The signature of the function that a name means, if it means one whose heading has neither an error nor a hole.
pub fn function_signature(signatures: &[Signature], sighting: Sighting) -> Option<&Signature>
    ensures { (k : Known) (n : List ℕ) (f : Found) → k.signatures ≡ signatures.now → ShowsFound k n sighting f → ShowsRoutine k (option_copied result) (arguments.function_signature f) }
{
    match sighting {
        Sighting::Here(declared) => match declared.class {
            NameClass::Function => signature_at(signatures, declared.signature),
            _ => None,
        },
        _ => None,
    }
}

/// The signature of the procedure that a name means, likewise.
pub fn procedure_signature(signatures: &[Signature], sighting: Sighting) -> Option<&Signature>
    ensures { (k : Known) (n : List ℕ) (f : Found) → k.signatures ≡ signatures.now → ShowsFound k n sighting f → ShowsRoutine k (option_copied result) (arguments.procedure_signature f) }
{
    match sighting {
        Sighting::Here(declared) => match declared.class {
            NameClass::Procedure => signature_at(signatures, declared.signature),
            _ => None,
        },
        _ => None,
    }
}

/// The signature with this number, if there is one.
pub fn signature_at(signatures: &[Signature], id: Option<SignatureId>) -> Option<&Signature>
    ensures { (k : Known) (r : Option Routine) → k.signatures ≡ signatures.now → ShowsSignatures k id r → ShowsRoutine k (option_copied result) r }
{
    match id {
        Some(number) => signatures.get(number.0 as usize),
        None => None,
    }
}

/// The value and the width of an argument with one.
#[tactic(auto, using(pc_forms::specs::ClassesLaws::wider))]
pub(crate) fn parts<'a>(node: &'a Tree) -> (Expression<'a>, Expression<'a>)
    requires { node.now.kind ≡ kind.Width }
    ensures { form.Width result.0 result.1 ≡ form_of node.now }
{
    match form_of(node) {
        Form::Width { value, width } => (Expression::new(value), Expression::new(width)),
        _ => unreachable!(),
    }
}

/// The name of a name alone.
pub(crate) fn reference_name(node: &Tree) -> &Tree
    requires { node.now.kind ≡ kind.Ref }
    ensures { form.Ref result.now ≡ form_of node.now }
{
    match form_of(node) {
        Form::Ref { name } => name,
        _ => unreachable!(),
    }
}

/// The ends of a span.
#[tactic(auto, using(pc_forms::specs::ClassesLaws::wider))]
pub(crate) fn ends<'a>(node: &'a Tree) -> (Expression<'a>, Expression<'a>)
    requires { node.now.kind ≡ kind.Span }
    ensures { form.Span result.0 result.1 ≡ form_of node.now }
{
    match form_of(node) {
        Form::Span { low, high } => (Expression::new(low), Expression::new(high)),
        _ => unreachable!(),
    }
}

/// Whether a node is a hole.
pub fn is_hole(node: &Tree) -> bool
    ensures { result ≡ sorts.is_hole node.now.kind }
{
    matches!(node.kind(), Kind::Hole(_))
}
