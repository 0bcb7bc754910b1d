//! Components of variables (ISO 7185, 6.5.3).

ghost use Rattle.std.specs.Prelude.{◌≡◌, ◌<◌, IfSome, Some, option_map, length};
ghost use Rattle.pc_syntax.specs.Words.{lowered};
ghost use Rattle.pc_types.specs.Rows.{seen};
ghost use Rattle.pc_types.specs.Table.{shape_at, IsThere};
ghost use Rattle.pc_types.specs.Table as table;
ghost use Rattle.pc_judgements.specs.Judged as judged;

use pc_types::{Operand, TypeId, Types};

/// The index type, if the type is known and an array.
pub fn index_of(types: &Types, operand: Option<Operand>) -> Option<Operand>
    ensures shape { option_map (shape_at (seen types.now)) result ≡ judged.index_of (option_map (shape_at (seen types.now)) operand) }
    ensures there { IfSome operand (IsThere (seen types.now)) → IfSome result (IsThere (seen types.now)) }
{
    match operand {
        Some(array) => index_in(types, array),
        None => None,
    }
}

#[tactic(auto, using(crate::proofs::ArraysLaws::arrays))]
fn index_in(types: &Types, array: Operand) -> Option<Operand>
    ensures shape { option_map (shape_at (seen types.now)) result ≡ judged.index_of (Some (shape_at (seen types.now) array)) }
    ensures there { IsThere (seen types.now) array → IfSome result (IsThere (seen types.now)) }
{
    numbered(types, types.index(array))
}

/// The type of the elements, if the type is known and an array.
pub fn component_of(types: &Types, operand: Option<Operand>) -> Option<Operand>
    ensures shape { option_map (shape_at (seen types.now)) result ≡ judged.component_of (option_map (shape_at (seen types.now)) operand) }
    ensures there { IfSome operand (IsThere (seen types.now)) → IfSome result (IsThere (seen types.now)) }
{
    match operand {
        Some(array) => element_in(types, array),
        None => None,
    }
}

#[tactic(auto, using(crate::proofs::ArraysLaws::arrays))]
fn element_in(types: &Types, array: Operand) -> Option<Operand>
    ensures shape { option_map (shape_at (seen types.now)) result ≡ judged.component_of (Some (shape_at (seen types.now) array)) }
    ensures there { IsThere (seen types.now) array → IfSome result (IsThere (seen types.now)) }
{
    numbered(types, types.element(array))
}

/// The type of the field with this name, in any case, if the type is known and a record that has it. Work: the number of fields.
pub fn field_type(types: &Types, operand: Option<Operand>, name: &[u8]) -> Option<Operand>
    ensures shape { option_map (shape_at (seen types.now)) result ≡ judged.field_type (option_map (shape_at (seen types.now)) operand) (lowered name.now) }
    ensures there { IfSome result (IsThere (seen types.now)) }
{
    match operand {
        Some(record) => numbered(types, types.field(record, name)),
        None => None,
    }
}

/// Whether the type is known, and an array or record type that is packed.
pub fn packed_type(types: &Types, operand: Option<Operand>) -> bool
    ensures { result ≡ judged.packed_type (option_map (shape_at (seen types.now)) operand) }
{
    match operand {
        Some(whole) => types.is_packed(whole),
        None => false,
    }
}

/// The type of the table with this number.
fn numbered(types: &Types, id: Option<TypeId>) -> Option<Operand>
    ensures shape { option_map (shape_at (seen types.now)) result ≡ option_map (table.numbered (seen types.now).shapes) id }
    ensures there { IfSome id (λ i. i.0 < length (seen types.now).shapes) → IfSome result (IsThere (seen types.now)) }
{
    match id {
        Some(id) => Some(Operand::Id(id)),
        None => None,
    }
}
