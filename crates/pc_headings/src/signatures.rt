//! Signatures of routines (ISO 7185, 6.6.1, 6.6.2).

ghost use Rattle.std.specs.Prelude.{◌≡◌, List, Option, IfOk, OnOk};
ghost use Rattle.pc_syntax.specs.declared.kind.Kind.{Kind as Routine};
ghost use Rattle.pc_types.specs.Shapes.{Typed};
ghost use Rattle.pc_rules.specs.Attributes.{is_empty};
ghost use Rattle.pc_rules.specs.Meanings.{Formal as Meant, Signature as Rule};
ghost use Rattle.pc_facts.specs.Known.{Known};
ghost use Rattle.pc_facts.specs.Shows.{ShowsSignatures};
ghost use Rattle.pc_growth.specs.Grows.{Begins};
ghost use Rattle.pc_headings.specs.Listing.{ShowsFormalsOf};
ghost use Rattle.pc_headings.specs.Signatures.{signature_from, HasResult, IsWanted};

use crate::names::u32_of;
use pc_facts::{Formal, Signature, SignatureId, both};
use pc_report::ErrorEntry;
use pc_types::TypeId;
use std::alloc::AllocError;

/// The signature of a heading, where it has neither an error nor a hole, all types are known, and a function has its result type.
pub(crate) fn signature(
    signatures: &mut Vec<Signature>,
    hole: bool,
    entries: &[ErrorEntry],
    formals: Vec<Formal>,
    is_whole: bool,
    has_result: bool,
    result_type: Option<TypeId>,
) -> Result<Option<SignatureId>, AllocError>
    ensures begins { OnOk result (Begins signatures.old.items signatures.new.items) }
    ensures shows { IfOk result (λ id. (k : Known) (r : Routine) (t : Option Typed) (gs : Option (List Meant)) → k.signatures ≡ signatures.new.items → ShowsFormalsOf k is_whole formals.items gs → HasResult k r has_result result_type t → ShowsSignatures k id (signature_from hole entries.now r t gs)) }
{
    let is_right = both(both(!hole, is_empty(entries)), both(is_whole, has_result));
    let id = add_where(signatures, is_right, formals, result_type)?;
    Ok(id)
}

/// A signature, where the condition holds.
fn add_where(
    signatures: &mut Vec<Signature>,
    is_right: bool,
    formals: Vec<Formal>,
    result_type: Option<TypeId>,
) -> Result<Option<SignatureId>, AllocError>
    ensures begins { OnOk result (Begins signatures.old.items signatures.new.items) }
    ensures shows { IfOk result (λ id. (k : Known) (r : Option Rule) → k.signatures ≡ signatures.new.items → IsWanted k is_right formals.items result_type r → ShowsSignatures k id r) }
{
    if is_right {
        let id = u32_of(signatures.len())?;
        signatures.push(Signature {
            formals,
            result: result_type,
        })?;
        Ok(Some(SignatureId(id)))
    } else {
        Ok(None)
    }
}

/// Whether there is no entry.
fn is_empty(entries: &[ErrorEntry]) -> bool
    ensures { result ≡ is_empty entries.now }
{
    entries.is_empty()
}
