//! Control variables of for statements (ISO 7185, 6.8.3.9).

ghost use Rattle.std.specs.Prelude.{◌≡◌, ℕ, List, false, Option, option_map, IfOk, OnOk, if◌then◌else◌};
ghost use Rattle.pc_syntax.specs.Words.{lowered};
ghost use Rattle.pc_names.specs.Numbers as numbers;
ghost use Rattle.pc_statements.specs.ForLaws.{changed_since};

use pc_facts::Variable;
use pc_names::{NameId, Names};
use pc_sightings::Touched;
use pc_syntax::lower;
use pc_types::OwnerId;
use std::alloc::AllocError;

/// The number of a name, in any case, if it has one. `small` is a buffer for the name in small letters. Only memory can fail; a number
/// past 32 bits counts as no memory.
pub(crate) fn number_of(
    names: &Names,
    small: &mut Vec<u8>,
    word: &[u8],
) -> Result<Option<NameId>, AllocError>
    ensures { IfOk result (λ o. numbers.number_of names.now.texts (lowered word.now) ≡ option_map (λ i. i.0) o) }
{
    put_lowered(small, word)?;
    match names.number_of(small.as_slice()) {
        Some(number) => match u32::try_from(number) {
            Ok(id) => Ok(Some(NameId(id))),
            Err(_) => Err(AllocError),
        },
        None => Ok(None),
    }
}

/// Puts the word in small letters into the buffer, in place of what it has. Only memory can fail.
fn put_lowered(small: &mut Vec<u8>, word: &[u8]) -> Result<(), AllocError>
    ensures { OnOk result (small.new.items ≡ lowered word.now) }
{
    small.clear();
    for byte in word {
        small.push(lower(*byte))?;
    }
    Ok(())
}

/// Whether the variable of the block with this name, if the name has a number, stands in a log since the mark.
pub(crate) fn is_changed_since(
    log: &Touched,
    mark: usize,
    owner: OwnerId,
    name: Option<NameId>,
) -> bool
    ensures { result ≡ changed_since mark log.now owner.0 (option_map (λ i. i.0) name) }
{
    match name {
        Some(known) => log.since(mark, Variable { owner, name: known }),
        None => false,
    }
}

/// The same where the place of the name has no hole.
pub(crate) fn is_changed_inside(
    hole: bool,
    log: &Touched,
    mark: usize,
    owner: OwnerId,
    name: Option<NameId>,
) -> bool
    ensures { result ≡ if hole then false else changed_since mark log.now owner.0 (option_map (λ i. i.0) name) }
{
    if hole {
        false
    } else {
        is_changed_since(log, mark, owner, name)
    }
}
