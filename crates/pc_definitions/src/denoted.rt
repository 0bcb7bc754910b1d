//! The definition of a denoter behind the name of a type or behind the names of variables.

ghost use Rattle.std.specs.Prelude.{◌≡◌, ◌∷◌, ◌+◌, ◌*◌, [], ℕ, List, get_or, if◌then◌else◌, IfOk};
ghost use Rattle.pc_syntax.specs.Words.{lowered};
ghost use Rattle.pc_types.specs.Shapes.{Owner};
ghost use Rattle.pc_types.specs.Table.{definition_in, nobody};
ghost use Rattle.pc_definitions.specs.Namings as namings;
ghost use Rattle.pc_definitions.specs.Numbered.{number_for};

use crate::naming::Naming;
use pc_syntax::{Path, Word, lower};
use pc_types::{Definition, OwnerId};
use std::alloc::{AllocError, Global};

/// The definition of the denoter that is the second kid of a node behind this name, given which kid of its list the node is, from 1,
/// the number of the part that it stands in, and how often the name stood before in the block, if it did. Fails for want of memory, and
/// where the number is 2^32 or more.
pub fn definition(
    alloc: Global,
    owner: OwnerId,
    naming: Naming,
    word: &[u8],
    kid: u32,
    part: u32,
    before: u32,
) -> Result<Definition, AllocError>
    ensures definition { IfOk result (λ d. (owners : List Owner) → definition_in owners d ≡ record { owner = get_or owners owner.0 nobody; name = (if namings.is_nameless naming then [] else lowered word.now); number = number_for naming kid part before; inside = 2 ∷ [] }) }
    ensures owner { IfOk result (λ d. d.owner ≡ owner) }
{
    let name = name_in(alloc, naming.is_nameless(), word)?;
    let number = number_in(naming, kid, part, before)?;
    let inside = Path::of(alloc, &[2])?;
    Ok(Definition {
        owner,
        name,
        number,
        inside,
    })
}

/// The word in small letters, or an empty one where there is no name.
fn name_in(alloc: Global, nameless: bool, word: &[u8]) -> Result<Word, AllocError>
    ensures { IfOk result (λ w. w ≡ (if nameless then [] else lowered word.now)) }
{
    let mut small = Vec::new(alloc);
    if !nameless {
        for byte in word {
            small.push(lower(*byte))?;
        }
    }
    Ok(Word::from_vec(small))
}

fn number_in(naming: Naming, kid: u32, part: u32, before: u32) -> Result<u32, AllocError>
    ensures { IfOk result (λ n. n ≡ number_for naming kid part before) }
{
    match naming {
        Naming::Nameless => place_number(kid, part),
        Naming::First(_) => Ok(0),
        Naming::Second => Ok(before),
    }
}

/// Twice the first number, and the second one.
fn place_number(kid: u32, part: u32) -> Result<u32, AllocError>
    ensures { IfOk result (λ n. n ≡ 2 * kid + part) }
{
    match kid.checked_mul(2) {
        Some(twice) => match twice.checked_add(part) {
            Some(number) => Ok(number),
            None => Err(AllocError),
        },
        None => Err(AllocError),
    }
}
