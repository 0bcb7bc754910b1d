//! The parameters of a block that is begun (ISO 7185, 6.6.3).

ghost use Rattle.std.specs.Prelude.{◌≡◌, ◌<◌, ℕ, length, OnOk};
ghost use Rattle.pc_names.specs.Standing.{meant};
ghost use Rattle.pc_rules.specs.Meanings.{Meaning};
ghost use Rattle.pc_facts.specs.Known.{Known};
ghost use Rattle.pc_places.specs.Parameters.{AreNamed};
ghost use Rattle.pc_places.specs.Scenes.{ShowsUnsigned};
ghost use Rattle.pc_openings.specs.Opened.{Carries};

use pc_facts::Declared;
use pc_names::{BlockId, DeclarationId, NameClass, Names};
use pc_places::Parameter;
use std::alloc::AllocError;

/// The block declares each parameter, whose declaration is there and complete. Only memory can fail.
pub(crate) fn declare_parameters(
    names: &mut Names,
    declarations: &[Declared],
    block: BlockId,
    parameters: &[Parameter],
) -> Result<(), AllocError>
    requires block { block.0 < length names.old.chains }
    requires named { AreNamed (length names.old.texts) parameters.now }
    ensures { OnOk result (Carries declarations.now block.0 parameters.now (length parameters.now) names.old names.new) }
{
    for parameter in parameters {
        let class = class_of(declarations, parameter.declaration);
        names.announce(block, parameter.name, class)?;
        names.declare(block, parameter.name, parameter.declaration)?;
    }
    Ok(())
}

/// As what the name of a declaration that is there is declared.
fn class_of(declarations: &[Declared], id: DeclarationId) -> NameClass
    ensures { (k : Known) (m : Meaning) → ShowsUnsigned k declarations.now id.0 m → meant result ≡ m.class }
{
    match declarations.get(id.0 as usize) {
        Some(declared) => declared.class,
        None => NameClass::Value,
    }
}
