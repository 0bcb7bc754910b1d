//! Types that lead to something unknown lose their types.

ghost use Rattle.std.specs.Prelude.{◌≡◌, ◌<◌, [], ◌∷◌, length, OnOk};
ghost use Rattle.pc_types.specs.Rows.{seen};
ghost use Rattle.pc_closing.specs.Whole.{is_whole_in};
ghost use Rattle.pc_domains.specs.Types.{AllBelow, declaration_at};
ghost use Rattle.pc_domains.specs.Sifting.{unknown_in, AreSettled, Sifts};

use crate::declared;
use crate::declared::declared_type;
use pc_closing::Whole;
use pc_facts::Declared;
use pc_names::{BlockId, NameId};
use pc_places::{Tables, retell};
use std::alloc::AllocError;

/// The block's types under these names are told again without a type, where something unknown is reached from it. Fails for want of
/// memory, and where there are as many declarations as numbers.
pub(crate) fn sift(
    tables: &mut Tables,
    whole: &Whole,
    block: BlockId,
    ids: &[NameId],
) -> Result<(), AllocError>
    requires block { block.0 < length tables.old.names.chains }
    requires there { AllBelow (length tables.old.names.texts) ids.now }
    ensures { OnOk result (Sifts whole.now block.0 ids.now tables.old tables.new) }
{
    for id in ids {
        sift_name(tables, whole, block, *id)?;
    }
    Ok(())
}

/// The same of one name.
fn sift_name(
    tables: &mut Tables,
    whole: &Whole,
    block: BlockId,
    name: NameId,
) -> Result<(), AllocError>
    requires block { block.0 < length tables.old.names.chains }
    requires there { name.0 < length tables.old.names.texts }
    ensures { OnOk result (Sifts whole.now block.0 (name ∷ []) tables.old tables.new) }
{
    if let Some(declared) = unknown_type(tables, whole, block, name) {
        let untyped = Declared {
            name,
            of: None,
            ..declared
        };
        retell(tables, block, name, untyped)?;
    }
    Ok(())
}

/// The declaration of a type from which something unknown is reached, if the block has one under the name.
fn unknown_type(tables: &Tables, whole: &Whole, block: BlockId, name: NameId) -> Option<Declared>
    ensures { AreSettled (seen tables.now.types) whole.now → result ≡ unknown_in (is_whole_in (seen tables.now.types).domains) (seen tables.now.types) (declaration_at tables.now block.0 name.0) }
{
    let declared = declared::declaration_at(tables, block, name)?;
    let of = declared_type(Some(declared))?;
    if whole.is_whole(&tables.types, of) {
        None
    } else {
        Some(declared)
    }
}
