//! Compatible and assignable types (ISO 7185, 6.4.5, 6.4.6).

ghost use Rattle.std.specs.Prelude.{◌≡◌, option_map};
ghost use Rattle.pc_types.specs.Compatibility.{compatible_ordinals, compatible_sets, compatible, assignable};
ghost use Rattle.pc_types.specs.Outlined.{same_packing, compatible_bases};
ghost use Rattle.pc_types.specs.Table.{shape_at, numbered};
ghost use Rattle.pc_types.specs.Rows.{seen};

use crate::form::TypeId;
use crate::operand::Operand;
use crate::types::Types;

impl Types {
    /// Whether the types are compatible (ISO 7185, 6.4.5).
    #[tactic(auto, unfolding(crate::specs::Compatibility::compatible))]
    pub fn compatible(&self, a: Operand, b: Operand) -> bool
        ensures { result ≡ compatible (shape_at (seen self.now) a) (shape_at (seen self.now) b) }
    {
        self.same(a, b)
            || self.compatible_ordinals(a, b)
            || self.compatible_sets(a, b)
            || (self.is_string(a) && self.string_length(a) == self.string_length(b))
            || (self.is_pointer(a) && self.is_pointer(b) && (self.is_nil(a) || self.is_nil(b)))
    }

    /// Whether a value of the second type may be assigned to a variable of the first, its range aside (ISO 7185, 6.4.6).
    #[tactic(auto, unfolding(crate::specs::Compatibility::assignable))]
    pub fn assignable(&self, to: Operand, from: Operand) -> bool
        ensures { result ≡ assignable (shape_at (seen self.now) to) (shape_at (seen self.now) from) }
    {
        !self.is_nil(to)
            && (self.same(to, from)
                || ((self.is_ordinal(to) || self.is_set(to) || self.is_string(to))
                    && self.compatible(to, from))
                || (self.is_pointer(to) && self.is_nil(from)))
    }

    /// Whether the types are ordinal types with one host.
    pub fn compatible_ordinals(&self, a: Operand, b: Operand) -> bool
        ensures { result ≡ compatible_ordinals (shape_at (seen self.now) a) (shape_at (seen self.now) b) }
    {
        self.is_ordinal(a) && self.is_ordinal(b) && self.same(self.host(a), self.host(b))
    }

    /// Whether the types are compatible as sets.
    #[tactic(auto, using(crate::proofs::ShapesLaws::sets))]
    pub(crate) fn compatible_sets(&self, a: Operand, b: Operand) -> bool
        ensures { result ≡ compatible_sets (shape_at (seen self.now) a) (shape_at (seen self.now) b) }
    {
        let one = self.outline(a);
        let other = self.outline(b);
        one.is_set()
            && other.is_set()
            && same_packing(one.packing(), other.packing())
            && self.compatible_bases(one.base(), other.base())
    }

    fn compatible_bases(&self, a: Option<TypeId>, b: Option<TypeId>) -> bool
        ensures { result ≡ compatible_bases (option_map (numbered (seen self.now).shapes) a) (option_map (numbered (seen self.now).shapes) b) }
    {
        match (a, b) {
            (Some(one), Some(other)) => self.compatible_ordinals(
                Operand::Id(one),
                Operand::Id(other),
            ),
            _ => true,
        }
    }
}

/// Whether two set types are both packed or neither; true where one is no set type.
fn same_packing(one: Option<bool>, other: Option<bool>) -> bool
    ensures { result ≡ same_packing one other }
{
    match (one, other) {
        (Some(packed), Some(another)) => packed == another,
        _ => true,
    }
}
