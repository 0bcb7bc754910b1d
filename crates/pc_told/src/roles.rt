//! The roles of expressions: how an expression is judged depends on where it stands.

ghost use Rattle.std.specs.Prelude.{◌≡◌, ◌+◌, [], if◌then◌else◌};
ghost use Rattle.pc_syntax.specs.declared.kind.Kind.TheVariants as kind;
ghost use Rattle.pc_rules.specs.Attributes.{Attributes};
ghost use Rattle.pc_decl.specs.Roles as roles;
ghost use Rattle.pc_decl.specs.Roles.{judged_as};
ghost use Rattle.pc_facts.specs.Known.{Known};
ghost use Rattle.pc_facts.specs.Shows.{ShowsNode, ShowsType, target_of};
ghost use Rattle.pc_told.specs.Contexts.{meant_role, argument_by, role_by, is_variable};
ghost use Rattle.pc_told.specs.declared.roles.Wanted.TheVariants as wants;

use pc_facts::{Facts, Formal, Judgement, Signature, SignatureId};
use pc_syntax::Kind;
use pc_types::Operand;

/// How an expression is wanted: for its value, as a variable, or as the target of an assignment.
#[derive(Clone, Copy)]
pub(crate) enum Role {
    Value,
    Variable,
    Target,
}

/// What a call or a procedure statement wants of its arguments: values; variables; or what the parameters of this signature say.
#[derive(Clone, Copy)]
pub(crate) enum Wanted {
    Values,
    Variables,
    Parameters(SignatureId),
}

/// Where the kids of a node stand: its kind, the kind of the node above it, and what the latter wants of its arguments.
#[derive(Clone, Copy)]
pub(crate) struct Context {
    pub(crate) kind: Kind,
    pub(crate) outer: Kind,
    pub(crate) wanted: Wanted,
}

/// The role of the kid that has this many kids before it.
pub(crate) fn role_of(signatures: &[Signature], context: Context, index: usize) -> Role
    ensures { meant_role result ≡ role_by signatures.now context.kind context.wanted (index + 1) }
{
    match context.kind {
        Kind::Assign => first_as_target(index),
        Kind::Index | Kind::Select | Kind::Deref | Kind::Accesses => Role::Variable,
        Kind::Args | Kind::Exprs => argument_role(signatures, context.wanted, index),
        _ => Role::Value,
    }
}

/// The role of a kid of an assignment.
fn first_as_target(index: usize) -> Role
    ensures { meant_role result ≡ role_by [] kind.Assign wants.Values (index + 1) }
{
    if index == 0 {
        Role::Target
    } else {
        Role::Value
    }
}

/// The role of the argument that has this many before it, where this is wanted of arguments.
fn argument_role(signatures: &[Signature], wanted: Wanted, index: usize) -> Role
    ensures { meant_role result ≡ argument_by signatures.now wanted (index + 1) }
{
    match wanted {
        Wanted::Values => Role::Value,
        Wanted::Variables => Role::Variable,
        Wanted::Parameters(id) => parameter_role(signatures, id, index),
    }
}

/// The same, where the parameters of this signature say it.
fn parameter_role(signatures: &[Signature], id: SignatureId, index: usize) -> Role
    ensures { meant_role result ≡ argument_by signatures.now (wants.Parameters id) (index + 1) }
{
    match signatures.get(id.0 as usize) {
        Some(signature) => by_place(is_by_place(signature.formals.as_slice(), index)),
        None => Role::Value,
    }
}

/// The role of an argument by a parameter.
fn by_place(by_place: bool) -> Role
    ensures { meant_role result ≡ (if by_place then roles.AsVariable else roles.AsValue) }
{
    if by_place {
        Role::Variable
    } else {
        Role::Value
    }
}

/// Whether the parameter that has this many before it is a variable parameter.

fn is_by_place(formals: &[Formal], index: usize) -> bool
    ensures { result ≡ is_variable formals.now (index + 1) }
{
    match formals.get(index) {
        Some(formal) => formal.by_place,
        None => false,
    }
}

/// The type of an expression in a role.
pub(crate) fn type_in(role: Role, facts: &Facts) -> Option<Operand>
    ensures { (k : Known) (a : Attributes) → ShowsNode k facts.now a → ShowsType k.table result (judged_as (meant_role role) a).type }
{
    match role {
        Role::Value => facts.value_type(),
        Role::Variable => facts.place_type(),
        Role::Target => target_type(facts),
    }
}

/// The type as the target of an assignment.
fn target_type(facts: &Facts) -> Option<Operand>
    ensures { result ≡ (target_of facts.now.judgement).of }
{
    match &facts.judgement {
        Judgement::Same(judged) => judged.of,
        Judgement::ByUse(_, _, target) => target.of,
    }
}
