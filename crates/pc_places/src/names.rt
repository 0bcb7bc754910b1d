//! Used names (ISO 7185, 6.2.2).

ghost use Rattle.std.specs.Prelude.{◌≡◌, ◌<◌, ℕ, List, length, true, IfOk};
ghost use Rattle.pc_syntax.specs.Classes.{has};
ghost use Rattle.pc_syntax.specs.declared.class.Class.TheVariants as class;
ghost use Rattle.pc_types.specs.Rows.{seen};
ghost use Rattle.pc_rules.specs.Meanings.{Local, Outside, find, Found as Meant};
ghost use Rattle.pc_environment.specs.Decorating.{attributes_at};
ghost use Rattle.pc_facts.specs.Known.{Known};
ghost use Rattle.pc_facts.specs.Shows.{ShowsFound, ShowsName};
ghost use Rattle.pc_sightings.specs.Meeting.{ShowsMet};
ghost use Rattle.pc_places.specs.Scenes.{SeesNames, ShowsUnsigned, unsigned_at, unsigned_found};

use pc_facts::{Declared, Named, Sighting};
use pc_names::{BlockId, Names};
use pc_sightings::{Met, find};
use pc_syntax::{Kind, Tree};
use pc_types::{Operand, Types};
use std::alloc::AllocError;

/// What a used name means, or a hole in its place, but for the parameters and the result of a routine. `opened` are the records that
/// withs have opened, the innermost last; `small` is a buffer for the name in small letters. Only memory can fail.
pub fn used_name(
    names: &Names,
    types: &Types,
    declarations: &[Declared],
    opened: &[Operand],
    block: BlockId,
    small: &mut Vec<u8>,
    node: &Tree,
) -> Result<Named, AllocError>
    requires { block.0 < length names.now.chains }
    ensures { IfOk result (λ n. (k : Known) (out : Outside) (l : Local) → has class.Name node.now.kind ≡ true → l.using ≡ true → k.table ≡ seen types.now → SeesNames k names.now declarations.now block.0 opened.now (find out l) → ShowsName k n (unsigned_at (attributes_at out l node.now))) }
{
    match node.kind() {
        Kind::Name => {
            let met = find(names, types, opened, block, small, node.word())?;
            let sighting = sighting_of(declarations, met);
            Ok(Named {
                hole: false,
                sighting,
            })
        }
        _ => Ok(Named {
            hole: true,
            sighting: Sighting::Missing,
        }),
    }
}

/// What a name was met as, with its declaration.
fn sighting_of(declarations: &[Declared], met: Met) -> Sighting
    ensures { (k : Known) (n : List ℕ) (f : Meant) → ShowsMet (ShowsUnsigned k declarations.now) k n met f → ShowsFound k n result (unsigned_found f) }
{
    match met {
        Met::Here(declaration, name) => match declarations.get(declaration.0 as usize) {
            Some(declared) => Sighting::Here(Declared {
                name,
                signature: None,
                ..*declared
            }),
            None => Sighting::Missing,
        },
        Met::Later(class) => Sighting::Later(class),
        Met::Component(of, packed) => Sighting::Component(of, packed),
        Met::Required(builtin) => Sighting::Required(builtin),
        Met::Missing => Sighting::Missing,
    }
}
