//! What a name means from a block outwards (ISO 7185, 6.2.2).

ghost use Rattle.std.specs.Prelude.{◌<◌, ℕ, List, length, IfOk};
ghost use Rattle.pc_syntax.specs.Words.{lowered};
ghost use Rattle.pc_rules.specs.Meanings.{Found as Meant};
ghost use Rattle.pc_facts.specs.Known.{Known};
ghost use Rattle.pc_facts.specs.Shows.{ShowsFound};
ghost use Rattle.pc_sightings.specs.Meeting.{ShowsMet};
ghost use Rattle.pc_bodies.specs.Resolved.{ShowsDeclaration};
ghost use Rattle.pc_block_names.specs.Found.{MeansThere};

use pc_facts::{Declared, Sighting};
use pc_names::BlockId;
use pc_places::Tables;
use pc_sightings::{Met, find};
use std::alloc::AllocError;

/// What a name, in any case, means from the block outwards, no fields around. `small` is a buffer for the name in small letters. Only
/// memory can fail. Work: the length of the word, and one look-up in a hash table for each block up to the one that declares the name.
pub(crate) fn meaning_at(
    tables: &Tables,
    block: BlockId,
    small: &mut Vec<u8>,
    word: &[u8],
) -> Result<Sighting, AllocError>
    requires { block.0 < length tables.now.names.chains }
    ensures { IfOk result (λ s. MeansThere tables.now block.0 (lowered word.now) s) }
{
    let met = find(&tables.names, &tables.types, &[], block, small, word)?;
    let meaning = sighting_of(tables.declarations.as_slice(), met);
    Ok(meaning)
}

/// What a name was met as, with its declaration.
fn sighting_of(declarations: &[Declared], met: Met) -> Sighting
    ensures { (k : Known) (n : List ℕ) (f : Meant) → ShowsMet (ShowsDeclaration k declarations.now) k n met f → ShowsFound k n result f }
{
    match met {
        Met::Here(declaration, name) => match declarations.get(declaration.0 as usize) {
            Some(declared) => Sighting::Here(Declared { name, ..*declared }),
            None => Sighting::Missing,
        },
        Met::Later(class) => Sighting::Later(class),
        Met::Component(of, packed) => Sighting::Component(of, packed),
        Met::Required(builtin) => Sighting::Required(builtin),
        Met::Missing => Sighting::Missing,
    }
}
