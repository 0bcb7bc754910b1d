//! The type that goes with what a name means.

ghost use Rattle.std.specs.Prelude.{◌≡◌};
ghost use Rattle.pc_decl_view.specs.KeptLines.{type_of_value, result_in, result_type, type_declared, type_meant};

use pc_facts::{Declared, Sighting, Signature, SignatureId, Value};
use pc_names::NameClass;
use pc_types::Operand;

/// The type of what a name means, if that is a declaration that stands before and has a type.
pub(crate) fn type_meant(signatures: &[Signature], meaning: Sighting) -> Option<Operand>
    ensures { result ≡ type_meant signatures.now meaning }
{
    match meaning {
        Sighting::Here(declared) => type_declared(signatures, declared),
        _ => None,
    }
}

/// The type that goes with a declaration.
fn type_declared(signatures: &[Signature], declared: Declared) -> Option<Operand>
    ensures { result ≡ type_declared signatures.now declared.class declared }
{
    match declared.class {
        NameClass::Constant => type_of_value(declared.value),
        NameClass::Element => type_of_value(declared.value),
        NameClass::Type => declared.of,
        NameClass::Variable => declared.of,
        NameClass::Value => declared.of,
        NameClass::Reference => declared.of,
        NameClass::Procedure => None,
        NameClass::Function => result_type(signatures, declared.signature),
    }
}

/// The type of a constant's value.
fn type_of_value(value: Option<Value>) -> Option<Operand>
    ensures { result ≡ type_of_value value }
{
    match value {
        Some(value) => Some(value.of),
        None => None,
    }
}

/// The type of a function's result, by the number of its signature.
fn result_type(signatures: &[Signature], signature: Option<SignatureId>) -> Option<Operand>
    ensures { result ≡ result_type signatures.now signature }
{
    match signature {
        Some(id) => match signatures.get(id.0 as usize) {
            Some(signature) => result_in(signature),
            None => None,
        },
        None => None,
    }
}

/// The type of the result, if it is a function's signature.
fn result_in(signature: &Signature) -> Option<Operand>
    ensures { result ≡ result_in signature.now }
{
    match signature.result {
        Some(id) => Some(Operand::Id(id)),
        None => None,
    }
}
