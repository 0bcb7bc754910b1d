//! The types of set constructors (ISO 7185, 6.7.1).

ghost use Rattle.std.specs.Prelude.{◌≡◌, IfSome, IsTrue, Some, option_map};
ghost use Rattle.pc_types.specs.Shapes.{MembersType};
ghost use Rattle.pc_types.specs.TypeClasses.{is_ordinal, host};
ghost use Rattle.pc_types.specs.Rows.{seen};
ghost use Rattle.pc_types.specs.Table.{shape_at, IsThere};
ghost use Rattle.pc_judgements.specs.Judged as judged;

use pc_types::{Operand, Types};

/// The type of a member's expression, where that is known and ordinal.
pub fn member_type(types: &Types, operand: Option<Operand>) -> Option<Operand>
    ensures shape { option_map (shape_at (seen types.now)) result ≡ judged.member_type (option_map (shape_at (seen types.now)) operand) }
    ensures ordinal { IfSome result (λ member. IsTrue (is_ordinal (shape_at (seen types.now) member))) }
    ensures there { IfSome operand (IsThere (seen types.now)) → IfSome result (IsThere (seen types.now)) }
{
    match operand {
        Some(member) => ordinal(types, member),
        None => None,
    }
}

/// The type, where it is ordinal.
fn ordinal(types: &Types, operand: Operand) -> Option<Operand>
    ensures shape { option_map (shape_at (seen types.now)) result ≡ judged.member_type (Some (shape_at (seen types.now) operand)) }
    ensures ordinal { IfSome result (λ member. IsTrue (is_ordinal (shape_at (seen types.now) member))) }
    ensures there { IsThere (seen types.now) operand → IfSome result (IsThere (seen types.now)) }
{
    if types.is_ordinal(operand) {
        Some(operand)
    } else {
        None
    }
}

/// The type of a set constructor whose first member is of this type, which is ordinal: the set of its host. For other types, which no
/// member has, any set.
pub fn set_of(types: &Types, first: Operand) -> Operand
    ensures shape { IsTrue (is_ordinal (shape_at (seen types.now) first)) → shape_at (seen types.now) result ≡ MembersType (host (shape_at (seen types.now) first)) }
    ensures there { IsThere (seen types.now) first → IsThere (seen types.now) result }
{
    match first {
        Operand::Id(id) => Operand::Members(types.host_id(id)),
        _ => Operand::NoMembers,
    }
}
