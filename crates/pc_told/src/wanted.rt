//! What calls and procedure statements want of their arguments.

ghost use Rattle.std.specs.Prelude.{◌≡◌, ◌<◌, ℕ, List, length, true, IfOk, OnOk};
ghost use Rattle.pc_syntax.specs.declared.kind.Kind.TheVariants as kind;
ghost use Rattle.pc_rules.specs.Meanings.{Local, Outside};
ghost use Rattle.pc_facts.specs.Shows.{ShowsFound};
ghost use Rattle.pc_bodies.specs.Resolved.{known};
ghost use Rattle.pc_told.specs.Contexts.{ShowsWanted, is_call, wanted_of_name, signature_wants};
ghost use Rattle.pc_told.specs.Tells.{Kept, StandsAt};
ghost use Rattle.pc_told.specs.Told.{first_found};

use crate::roles::Wanted;
use pc_bodies::{Body, Going, used_name};
use pc_facts::{Sighting, SignatureId};
use pc_names::NameClass;
use pc_scope::Builtin;
use pc_syntax::{Kind, Tree};
use std::alloc::AllocError;

/// What a node wants of its arguments, which the name says that is its first kid. Only memory can fail.
pub(crate) fn wanted_by(body: &Body, going: &mut Going, node: &Tree) -> Result<Wanted, AllocError>
    requires { body.now.block.0 < length body.now.names.now.chains }
    ensures wanted { IfOk result (λ w. (out : Outside) (l : Local) → StandsAt body.now going.old out l → ShowsWanted body.now.signatures.now w node.now.kind (first_found out l node.now.kind node.now.kids)) }
    ensures kept { OnOk result (Kept going.old going.new) }
{
    match node.kind() {
        Kind::Call => {
            let name = name_called(body, going, node)?;
            Ok(wanted_of(Kind::Call, name))
        }
        Kind::Proc => {
            let name = name_called(body, going, node)?;
            Ok(wanted_of(Kind::Proc, name))
        }
        _ => Ok(Wanted::Values),
    }
}

/// What the name means that a call or a procedure statement begins with. Only memory can fail.
fn name_called(body: &Body, going: &mut Going, node: &Tree) -> Result<Sighting, AllocError>
    requires block { body.now.block.0 < length body.now.names.now.chains }
    requires call { is_call node.now.kind ≡ true }
    ensures shows { IfOk result (λ x. (out : Outside) (l : Local) → StandsAt body.now going.old out l → (n : List ℕ) × ShowsFound (known body.now going.new) n x (first_found out l node.now.kind node.now.kids)) }
    ensures kept { OnOk result (Kept going.old going.new) }
{
    match node.kid(1) {
        Some(name) => {
            let named = used_name(body, going, name)?;
            Ok(named.sighting)
        }
        None => Ok(Sighting::Missing),
    }
}

/// What a node of this kind wants of its arguments, whose name means this.
fn wanted_of(kind: Kind, name: Sighting) -> Wanted
    ensures { result ≡ wanted_of_name kind name }
{
    match kind {
        Kind::Call => wanted_by_function(name),
        Kind::Proc => wanted_by_procedure(name),
        _ => Wanted::Values,
    }
}

/// The same of a call.
fn wanted_by_function(name: Sighting) -> Wanted
    ensures { result ≡ wanted_of_name kind.Call name }
{
    match name {
        Sighting::Here(declared) => match declared.class {
            NameClass::Function => wanted_by_signature(declared.signature),
            _ => Wanted::Values,
        },
        _ => Wanted::Values,
    }
}

/// The same of a procedure statement.
fn wanted_by_procedure(name: Sighting) -> Wanted
    ensures { result ≡ wanted_of_name kind.Proc name }
{
    match name {
        Sighting::Here(declared) => match declared.class {
            NameClass::Procedure => wanted_by_signature(declared.signature),
            _ => Wanted::Values,
        },
        Sighting::Required(builtin) => match builtin {
            Builtin::Read | Builtin::Readln | Builtin::New => Wanted::Variables,
            _ => Wanted::Values,
        },
        _ => Wanted::Values,
    }
}

/// What the parameters of a signature want, if there is one.
fn wanted_by_signature(signature: Option<SignatureId>) -> Wanted
    ensures { result ≡ signature_wants signature }
{
    match signature {
        Some(id) => Wanted::Parameters(id),
        None => Wanted::Values,
    }
}
