//! What a name means at a place, from the tables.

ghost use Rattle.std.specs.Prelude.{◌≡◌, ◌<◌, ℕ, Bool, List, None, Some, length, slice_get, IfOk, OnOk};
ghost use Rattle.pc_syntax.specs.Words.{lowered};
ghost use Rattle.pc_types.specs.Rows.{seen};
ghost use Rattle.pc_types.specs.Shapes.{Typed};
ghost use Rattle.pc_names.specs.Chains.{chain_of};
ghost use Rattle.pc_names.specs.Table.{found_named};
ghost use Rattle.pc_names.specs.Numbers as numbers;
ghost use Rattle.pc_rules.specs.Meanings.{entry_of};
ghost use Rattle.pc_facts.specs.Known.{Known};
ghost use Rattle.pc_sightings.specs.Opened.{ShowsOpened};
ghost use Rattle.pc_sightings.specs.Meeting.{Meets, MeetsBound, MeetsOutermost};

use crate::met::Met;
use crate::opened::field_at;
use pc_names::{BlockId, Bound, NameId, Names};
use pc_scope::required;
use pc_syntax::lower;
use pc_types::{Operand, Types};
use std::alloc::AllocError;

/// What a name, in any case, means at a place of the block: a field of the records that the `with` statements around have opened,
/// the innermost last; a declaration of this block or of one around it; or a required name. `small` is a buffer for the name in small
/// letters. Only memory can fail. Work: the fields of the records, the length of the word, and one look-up in a hash table for each
/// block up to the one that declares the name.
pub fn find(
    names: &Names,
    types: &Types,
    opened: &[Operand],
    block: BlockId,
    small: &mut Vec<u8>,
    word: &[u8],
) -> Result<Met, AllocError>
    requires { block.0 < length names.now.chains }
    ensures { IfOk result (λ m. (k : Known) (fields : List (List ℕ × (Typed × Bool))) → k.table ≡ seen types.now → k.names ≡ names.now.texts → ShowsOpened k.table opened.now fields → Meets k (lowered word.now) m (entry_of fields (lowered word.now)) (found_named names.now (chain_of names.now.chains block.0) (lowered word.now))) }
{
    match field_at(types, opened, word) {
        Some((of, packed)) => Ok(Met::Component(of, packed)),
        None => find_declared(names, block, small, word),
    }
}

/// The same of a name that is no field.
fn find_declared(
    names: &Names,
    block: BlockId,
    small: &mut Vec<u8>,
    word: &[u8],
) -> Result<Met, AllocError>
    requires { block.0 < length names.now.chains }
    ensures { IfOk result (λ m. MeetsBound names.now.texts (lowered word.now) m (found_named names.now (chain_of names.now.chains block.0) (lowered word.now))) }
{
    put_lowered(small, word)?;
    match names.number_of(small.as_slice()) {
        Some(number) => Ok(find_numbered(names, block, name_id(number)?, word)),
        None => Ok(outermost(word)),
    }
}

/// The same of a name that has this number.
fn find_numbered(names: &Names, block: BlockId, name: NameId, word: &[u8]) -> Met
    requires block { block.0 < length names.now.chains }
    requires name { numbers.number_of names.now.texts (lowered word.now) ≡ Some name.0 }
    ensures { MeetsBound names.now.texts (lowered word.now) result (found_named names.now (chain_of names.now.chains block.0) (lowered word.now)) }
{
    match names.find(block, name) {
        Bound::Here(declaration) => Met::Here(declaration, name),
        Bound::Later(class) => Met::Later(class),
        Bound::Unbound => outermost(word),
    }
}

/// What a name, in any case, means that no block declares.
fn outermost(word: &[u8]) -> Met
    ensures { MeetsOutermost (lowered word.now) result }
{
    match required(word) {
        Some(builtin) => Met::Required(builtin),
        None => Met::Missing,
    }
}

/// The number of a name, or no memory where it is none of 32 bits.
fn name_id(number: usize) -> Result<NameId, AllocError>
    ensures { IfOk result (λ i. i.0 ≡ number) }
{
    match u32::try_from(number) {
        Ok(id) => Ok(NameId(id)),
        Err(_) => Err(AllocError),
    }
}

/// Puts the word in small letters into the buffer, in place of what it has. Only memory can fail.
fn put_lowered(small: &mut Vec<u8>, word: &[u8]) -> Result<(), AllocError>
    ensures { OnOk result (small.new.items ≡ lowered word.now) }
{
    small.clear();
    for byte in word {
        small.push(lower(*byte))?;
    }
    Ok(())
}
