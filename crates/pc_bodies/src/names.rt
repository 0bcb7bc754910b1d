//! Used names (ISO 7185, 6.2.2).

ghost use Rattle.std.specs.Prelude.{◌≡◌, ◌<◌, ℕ, List, length, true, IfOk, OnOk};
ghost use Rattle.pc_syntax.specs.Classes.{has};
ghost use Rattle.pc_syntax.specs.declared.class.Class.TheVariants as class;
ghost use Rattle.pc_rules.specs.Meanings.{Local, Outside, Found as Meant};
ghost use Rattle.pc_environment.specs.Sight.{Sight, sight_of};
ghost use Rattle.pc_environment.specs.Decorating.{attributes_at};
ghost use Rattle.pc_facts.specs.Known.{Known};
ghost use Rattle.pc_facts.specs.Shows.{ShowsFound, ShowsName};
ghost use Rattle.pc_sightings.specs.Meeting.{ShowsMet};
ghost use Rattle.pc_bodies.specs.Resolved.{known, Stands, ShowsDeclaration};

use crate::body::{Body, Going};
use pc_facts::{Declared, Named, Sighting};
use pc_sightings::{Met, find};
use pc_syntax::{Kind, Tree};
use std::alloc::AllocError;

/// What a used name means, or a hole in its place. Only memory can fail.
pub fn used_name(body: &Body, going: &mut Going, node: &Tree) -> Result<Named, AllocError>
    requires { body.now.block.0 < length body.now.names.now.chains }
    ensures shows { IfOk result (λ n. (out : Outside) (l : Local) (s : Sight) → has class.Name node.now.kind ≡ true → sight_of out l ≡ s → l.using ≡ true → Stands body.now (known body.now going.old) going.old.opened.items s → ShowsName (known body.now going.new) n (attributes_at out l node.now)) }
    ensures opened { OnOk result (going.new.opened ≡ going.old.opened) }
    ensures texts { OnOk result (going.new.texts ≡ going.old.texts) }
    ensures touched { OnOk result (going.new.touched ≡ going.old.touched) }
{
    match node.kind() {
        Kind::Name => {
            let met = find(
                body.names,
                body.types,
                going.opened.as_slice(),
                body.block,
                &mut going.small,
                node.word(),
            )?;
            let sighting = sighting_of(body.declarations, met);
            Ok(Named {
                hole: false,
                sighting,
            })
        }
        _ => Ok(Named {
            hole: true,
            sighting: Sighting::Missing,
        }),
    }
}

/// What a name was met as, with its declaration.
fn sighting_of(declarations: &[Declared], met: Met) -> Sighting
    ensures { (k : Known) (n : List ℕ) (f : Meant) → ShowsMet (ShowsDeclaration k declarations.now) k n met f → ShowsFound k n result f }
{
    match met {
        Met::Here(declaration, name) => match declarations.get(declaration.0 as usize) {
            Some(declared) => Sighting::Here(Declared { name, ..*declared }),
            None => Sighting::Missing,
        },
        Met::Later(class) => Sighting::Later(class),
        Met::Component(of, packed) => Sighting::Component(of, packed),
        Met::Required(builtin) => Sighting::Required(builtin),
        Met::Missing => Sighting::Missing,
    }
}
