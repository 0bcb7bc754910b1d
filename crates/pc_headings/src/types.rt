//! Type names in a heading (ISO 7185, 6.6.2, 6.6.3.1).

ghost use Rattle.std.specs.Prelude.{◌≡◌, ◌<◌, [], ℕ, List, Option, true, length, IfOk};
ghost use Rattle.pc_syntax.specs.Classes.{has};
ghost use Rattle.pc_syntax.specs.declared.class.Class.TheVariants as class;
ghost use Rattle.pc_types.specs.Rows.{seen};
ghost use Rattle.pc_types.specs.Shapes.{Typed};
ghost use Rattle.pc_rules.specs.Meanings.{Found, Local, find};
ghost use Rattle.pc_rules.specs.Routines.{bare};
ghost use Rattle.pc_facts.specs.Known.{Known};
ghost use Rattle.pc_facts.specs.Shows.{ShowsType, shape_of};
ghost use Rattle.pc_places.specs.Places.{node_at};
ghost use Rattle.pc_places.specs.Scenes.{SeesNames};
ghost use Rattle.pc_headings.specs.Groups.{ShowsUsed, is_complex};

use crate::listed::UsedType;
use pc_facts::Declared;
use pc_name_rules::{Allowed, add_name_entries};
use pc_names::{BlockId, Names};
use pc_places::used_name;
use pc_syntax::Tree;
use pc_type_rules::type_of_sighting;
use pc_types::{Operand, Types};
use std::alloc::{AllocError, Global};

/// What is found at a type's name: its entries (rows 1, 2 and 4), seen from the name, and the type. `small` is a buffer for the name
/// in small letters. Only memory can fail.
pub(crate) fn used_type(
    alloc: Global,
    names: &Names,
    types: &Types,
    declarations: &[Declared],
    small: &mut Vec<u8>,
    block: BlockId,
    node: &Tree,
) -> Result<UsedType, AllocError>
    requires block { block.0 < length names.now.chains }
    requires class { has class.Name node.now.kind ≡ true }
    ensures { IfOk result (λ u. (k : Known) (means : List ℕ → Found) (l : Local) → l.using ≡ true → k.table ≡ seen types.now → SeesNames k names.now declarations.now block.0 [] (find (bare means) l) → ShowsUsed k u (node_at (bare means) l node.now)) }
{
    let named = used_name(names, types, declarations, &[], block, small, node)?;
    let mut entries = Vec::new(alloc);
    add_name_entries(alloc, &mut entries, node.word(), named, Allowed::Type)?;
    let of = type_of_sighting(types, named.sighting);
    Ok(UsedType {
        hole: named.hole,
        entries,
        of,
    })
}

/// Whether a type is known, and neither ordinal nor a pointer type.
pub(crate) fn is_complex(types: &Types, of: Option<Operand>) -> bool
    ensures { (ty : Option Typed) → ShowsType (seen types.now) of ty → result ≡ is_complex (shape_of ty) }
{
    match of {
        Some(known) => !(types.is_ordinal(known) || types.is_pointer(known)),
        None => false,
    }
}
